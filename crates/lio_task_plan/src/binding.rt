//! Binding, calling, returning and throwing.
#![tactic(auto, unfolding(lio_calculus::specs::Plan::plan_simple))]

ghost use Rattle.std.specs.Option.{option_copied};
ghost use Rattle.std.specs.Prelude.{◌≡◌, ◌==◌, ℕ, IfOk, List, Result, nat_le, option_and_then};
ghost use Rattle.std.specs.Prelude.{slice_get};
ghost use Rattle.lio_syntax_lines.specs.declared.line.Line.{Line};
ghost use Rattle.lio_syntax_lines.specs.declared.line.Simple.TheVariants as line;
ghost use Rattle.lio_values.specs.declared.fault.FaultKind.{FaultKind};
ghost use Rattle.lio_values.specs.declared.value.Value.{Value};
ghost use Rattle.lio_operators.specs.Answers.{Answers};
ghost use Rattle.lio_syntax_lines.specs.declared.line.Simple.{Simple};
ghost use Rattle.lio_calculus.specs.Task.{TaskState};
ghost use Rattle.lio_syntax.specs.Items.{open_calls};
ghost use Rattle.lio_calculus.specs.Operands.{bare_of, pure_of};
ghost use Rattle.lio_calculus.specs.Plan as plan;
ghost use Rattle.lio_values.specs.declared.act.Act.TheVariants as act;
ghost use Rattle.lio_values.specs.declared.act.Reply.TheVariants as reply;
ghost use Rattle.lio_task_turns.specs.declared.turn.Turn.TheVariants as turn;
ghost use Rattle.lio_task_turns.specs.declared.turn.Onward.TheVariants as onward;
ghost use Rattle.lio_task_plan.specs.Planned.{Computes, ComputesOne, ComputesSealed};
ghost use Rattle.lio_task_turns.specs.Turns.{Is, IsIn, Plans, PlansBy};
ghost use Rattle.lio_task_turns.specs.Procedure.{IsNumbered};
ghost use Rattle.lio_task_turns.specs.StateOf.{program_of, state_of};

use lio_clauses::NoMemory;
use lio_operators::{OpFault, operate_plains, operate_sealed, operate1};
use lio_syntax::Script;
use lio_syntax_lines::{One, Operand, Operands, Two};
use lio_task_turns::{Attempt, Onward, Procedure, Standing, Turn, operands};
use lio_values::{Act, Content, FaultKind, Held, Name, Plain, Reply, Value, Values};
use std::alloc::Global;

/// The most calls that a task has open.
const MOST_CALLS: usize = 64;

/// `let X = A`
#[inline(always)]
pub(crate) fn plan_let<'s>(
    alloc: Global,
    task: &Standing<'_>,
    name: &'s Name,
    value: &Operand,
) -> Attempt<'s>
    ensures { IfOk result (Plans task.now (line.Let name.now value.now)) }
{
    match operands::value(alloc, task.environment(), value) {
        Ok(Some(value)) => Ok(stepping(Onward::Bind(name, value))),
        Ok(None) => task.bad_type(alloc),
        Err(error) => Err(error),
    }
}

/// `let X = OP A`
pub(crate) fn plan_let_one<'s>(
    alloc: Global,
    task: &Standing<'_>,
    script: &Script,
    longest: u32,
    name: &'s Name,
    op: One,
    value: &Operand,
) -> Attempt<'s>
    ensures { IfOk result (PlansBy (program_of script.now longest) task.now
        (line.LetOne name.now op value.now)) }
{
    let literal = operands::literal(alloc, value)?;
    let seen = operands::bound(task.environment(), value, &literal);
    let planned = let_one(alloc, task, longest, name, op, seen);
    drop(literal);
    planned
}

/// An operator on a value, if it is there.
fn let_one<'s>(
    alloc: Global,
    task: &Standing<'_>,
    longest: u32,
    name: &'s Name,
    op: One,
    seen: Option<&Value>,
) -> Attempt<'s>
    ensures { IfOk result (ComputesOne task.now longest name.now op (option_copied seen.entry)) }
{
    match seen {
        Some(value) => computed(alloc, task, name, operate1(alloc, op, value, longest)),
        None => task.bad_type(alloc),
    }
}

/// `let X = A OP B`
#[inline(always)]
pub(crate) fn plan_let_two<'s>(
    alloc: Global,
    task: &Standing<'_>,
    script: &Script,
    longest: u32,
    name: &'s Name,
    left: &Operand,
    op: Two,
    right: &Operand,
) -> Attempt<'s>
    ensures { IfOk result (PlansBy (program_of script.now longest) task.now
        (line.LetTwo name.now left.now op right.now)) }
{
    let environment = task.environment();
    let Some(left) = operands::bare(environment, left) else {
        return task.bad_type(alloc);
    };
    match operands::bare(environment, right) {
        Some(right) => computed(
            alloc,
            task,
            name,
            operate_plains(alloc, op, left, right, longest),
        ),
        None => {
            let sealed = operands::sealed_value(environment, right);
            let_two_sealed(alloc, task, longest, name, op, left, sealed)
        }
    }
}

/// An operator on a bare value and a sealed one, if that is there: `push` takes one.
fn let_two_sealed<'s>(
    alloc: Global,
    task: &Standing<'_>,
    longest: u32,
    name: &'s Name,
    op: Two,
    left: &Plain,
    right: Option<&Value>,
) -> Attempt<'s>
    ensures { IfOk result (ComputesSealed task.now longest name.now op left.now
        (option_copied right.entry)) }
{
    match right {
        Some(right) => computed(
            alloc,
            task,
            name,
            operate_sealed(alloc, op, left, right, longest),
        ),
        None => task.bad_type(alloc),
    }
}

/// What an operator made is bound, or the refusal.
#[inline(always)]
fn computed<'s>(
    alloc: Global,
    task: &Standing<'_>,
    name: &'s Name,
    made: Result<Value, OpFault>,
) -> Attempt<'s>
    ensures { IfOk result (λ planned. (answer : Result Value FaultKind)
        → Answers answer made → Computes task.now name.now answer planned) }
{
    match made {
        Ok(value) => Ok(stepping(Onward::Bind(name, value))),
        Err(OpFault::Kind(kind)) => task.refused(alloc, Act::Step, kind),
        Err(OpFault::NoMemory) => Err(NoMemory),
    }
}

/// `call X P A ..`
pub(crate) fn plan_call<'s>(
    alloc: Global,
    task: &Standing<'_>,
    script: &Script,
    name: &'s Name,
    procedure: &Name,
    arguments: &Operands,
) -> Attempt<'s>
    ensures { IfOk result (λ turn. (longest : ℕ) → PlansBy (program_of script.now longest) task.now
        (line.Call name.now procedure.now arguments.now) turn) }
{
    let Some(values) = operands::values(alloc, task.environment(), arguments)? else {
        return task.bad_type(alloc);
    };
    match Procedure::find(script, procedure) {
        Some(procedure) => calling(alloc, task, script, name, &values, procedure),
        None => task.bad_type(alloc),
    }
}

/// The call of a procedure that is there.
fn calling<'s>(
    alloc: Global,
    task: &Standing<'_>,
    script: &Script,
    name: &'s Name,
    values: &Values,
    procedure: Procedure,
) -> Attempt<'s>
    requires { IsNumbered script.now procedure.number procedure.parameters.now procedure.line }
    ensures { IfOk result (λ planned. (simple : Simple) → IsIn script.now task.now simple planned
        (λ (state : TaskState). plan.calling state name.now values.now
        (slice_get script.now procedure.entry.number))) }
{
    if is_deep(task) {
        task.refused(alloc, Act::Step, FaultKind::Depth)
    } else {
        match procedure.environment(alloc, values) {
            Ok(environment) => Ok(stepping(Onward::Call(name, environment, procedure.line))),
            Err(error) => Err(error),
        }
    }
}

/// Whether as many calls are open as may be.
fn is_deep(task: &Standing<'_>) -> bool
    ensures { (lines : List Line)
        → result ≡ nat_le 64 (open_calls (state_of lines task.now).items) }
{
    task.open_calls() >= MOST_CALLS
}

/// `return A`
pub(crate) fn plan_return<'s>(alloc: Global, task: &Standing<'_>, value: &Operand) -> Attempt<'s>
    ensures { IfOk result (Plans task.now (line.Return value.now)) }
{
    match operands::value(alloc, task.environment(), value) {
        Ok(Some(value)) => returning(alloc, task, value),
        Ok(None) => task.bad_type(alloc),
        Err(error) => Err(error),
    }
}

/// The return of a value to the caller, or the end of the task with it where no call is open.
fn returning<'s>(alloc: Global, task: &Standing<'_>, value: Value) -> Attempt<'s>
    ensures { IfOk result (λ planned. Is task.now planned
        (λ (lines : List Line). plan.returning (state_of lines task.now) value)) }
{
    if is_main(task) {
        ending_with(alloc, task, value)
    } else {
        Ok(stepping(Onward::Return(value)))
    }
}

/// Whether no call is open.
fn is_main(task: &Standing<'_>) -> bool
    ensures { (lines : List Line) → result ≡ (open_calls (state_of lines task.now).items == 0) }
{
    task.open_calls() == 0
}

/// The end of the task with a value, if it is pure.
fn ending_with<'s>(alloc: Global, task: &Standing<'_>, value: Value) -> Attempt<'s>
    ensures { IfOk result (λ planned. Is task.now planned
        (λ (lines : List Line). plan.ending_with (state_of lines task.now)
        (option_and_then pure_of (bare_of value)))) }
{
    match value {
        Value::Bare(plain) => ending_with_plain(alloc, task, plain),
        Value::Sealed(_label, _content) => task.bad_type(alloc),
    }
}

/// The end of the task with a plain value, if it is pure.
fn ending_with_plain<'s>(alloc: Global, task: &Standing<'_>, plain: Plain) -> Attempt<'s>
    ensures { IfOk result (λ planned. Is task.now planned
        (λ (lines : List Line). plan.ending_with (state_of lines task.now) (pure_of plain))) }
{
    if plain.is_pure() {
        ending(alloc, Content::Kept(plain))
    } else {
        drop(plain);
        task.bad_type(alloc)
    }
}

/// `stop`
pub(crate) fn plan_stop<'s>(alloc: Global, task: &Standing<'_>) -> Attempt<'s>
    ensures { IfOk result (Plans task.now line.Stop) }
{
    ending(alloc, Content::Kept(Plain::Unit))
}

/// `throw A`
pub(crate) fn plan_throw<'s>(alloc: Global, task: &Standing<'_>, value: &Operand) -> Attempt<'s>
    ensures { IfOk result (Plans task.now (line.Throw value.now)) }
{
    match operands::pure(task.environment(), value) {
        Some(plain) => match plain.copy(alloc) {
            Ok(plain) => task.refused(alloc, Act::Step, FaultKind::User(plain)),
            Err(error) => Err(error),
        },
        None => task.bad_type(alloc),
    }
}

/// A turn that concerns the task alone.
#[inline(always)]
fn stepping<'s>(onward: Onward<'s>) -> Turn<'s>
    ensures { result ≡ turn.Step onward.entry }
{
    Turn::Step(onward)
}

/// The turn in which a task ends with a content.
fn ending<'s>(alloc: Global, content: Content) -> Attempt<'s>
    ensures { IfOk result
        (λ planned. planned ≡ turn.Own (act.Ended content) reply.Done onward.End) }
{
    match Held::new(alloc, content) {
        Ok(content) => Ok(Turn::Own(Act::Ended(content), Reply::Done, Onward::End)),
        Err(error) => Err(error),
    }
}
