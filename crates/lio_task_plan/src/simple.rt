//! The plan of a statement that opens no block.

ghost use Rattle.std.specs.Prelude.{IfOk};
ghost use Rattle.lio_task_turns.specs.Turns.{PlansBy};
ghost use Rattle.lio_task_turns.specs.StateOf.{program_of};

use crate::binding::{
    plan_call, plan_let, plan_let_one, plan_let_two, plan_return, plan_stop, plan_throw,
};
use crate::{
    plan_fork, plan_fullvar, plan_newref, plan_newvar, plan_put, plan_read, plan_send, plan_spawn,
    plan_take, plan_wait, plan_write,
};
use lio_syntax::Script;
use lio_syntax_lines::Simple;
use lio_task_turns::{Attempt, Standing};
use std::alloc::Global;

/// The turn of a statement that opens no block.
#[inline(always)]
pub(crate) fn plan_simple<'s>(
    alloc: Global,
    task: &Standing<'_>,
    script: &Script,
    longest: u32,
    simple: &'s Simple,
) -> Attempt<'s>
    ensures { IfOk result (PlansBy (program_of script.now longest) task.now simple.now) }
{
    match simple {
        Simple::Let(name, value) => plan_let(alloc, task, name, value),
        Simple::LetOne(name, op, value) => {
            plan_let_one(alloc, task, script, longest, name, *op, value)
        }
        Simple::LetTwo(name, left, op, right) => {
            plan_let_two(alloc, task, script, longest, name, left, *op, right)
        }
        Simple::Call(name, procedure, arguments) => {
            plan_call(alloc, task, script, name, procedure, arguments)
        }
        Simple::Return(value) => plan_return(alloc, task, value),
        Simple::Stop => plan_stop(alloc, task),
        Simple::Throw(value) => plan_throw(alloc, task, value),
        Simple::Label(name, label, value) => task.plan_label(alloc, name, label, value),
        Simple::Unlabel(name, value) => task.plan_unlabel(alloc, name, value),
        Simple::UnlabelUsing(name, value, power) => {
            task.plan_unlabel_using(alloc, name, value, power)
        }
        Simple::Taint(label) => task.plan_taint(alloc, label),
        Simple::Lower(label) => task.plan_lower(alloc, label),
        Simple::Relabel(name, value, label, power) => {
            task.plan_relabel(alloc, name, value, label, power)
        }
        Simple::NewRef(name, label, value) => plan_newref(alloc, task, name, label, value),
        Simple::NewVar(name, label) => plan_newvar(alloc, task, name, label),
        Simple::FullVar(name, label, value) => plan_fullvar(alloc, task, name, label, value),
        Simple::Read(name, reference) => plan_read(alloc, task, name, reference),
        Simple::Write(reference, value) => plan_write(alloc, task, reference, value),
        Simple::Take(name, variable) => plan_take(alloc, task, name, variable),
        Simple::Put(variable, value) => plan_put(alloc, task, variable, value),
        Simple::Fork(name, label, turns, cells, procedure, arguments) => plan_fork(
            alloc, task, script, name, label, turns, cells, procedure, arguments,
        ),
        Simple::Spawn(turns, cells, procedure, arguments) => {
            plan_spawn(alloc, task, script, turns, cells, procedure, arguments)
        }
        Simple::Wait(name, handle) => plan_wait(alloc, task, name, handle),
        Simple::Send(channel, text) => plan_send(alloc, task, channel, text),
    }
}
