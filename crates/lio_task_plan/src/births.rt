//! Children.
#![tactic(auto, unfolding(lio_calculus::specs::Plan::plan_simple))]

ghost use Rattle.std.specs.Prelude.{◌≡◌, ◌+◌, ◌-◌, ℕ, IfOk, List};
ghost use Rattle.lio_syntax_lines.specs.declared.line.Line.{Line};
ghost use Rattle.lio_syntax_lines.specs.declared.line.Simple.TheVariants as line;
ghost use Rattle.lio_calculus.specs.Plan as plan;
ghost use Rattle.lio_values.specs.declared.act.Act.TheVariants as act;
ghost use Rattle.lio_values.specs.declared.act.Op.TheVariants as op;
ghost use Rattle.lio_task_turns.specs.Turns.{GivesTurns, GuardsChild, Is, MakesChild, PlansBy};
ghost use Rattle.lio_task_turns.specs.StateOf.{program_of, state_of};

use crate::nodes::making;
use lio_clauses::NoMemory;
use lio_guards::Verdict;
use lio_labels::Label;
use lio_syntax::Script;
use lio_syntax_lines::{Operand, Operands};
use lio_task_turns::{Attempt, Onward, Standing, both, operands};
use lio_values::{Act, Birth, FaultKind, Held, Name, Op, Values};
use std::alloc::Global;

/// `fork X L T C P A ..`
pub fn plan_fork<'s>(
    alloc: Global,
    task: &Standing<'_>,
    script: &Script,
    name: &'s Name,
    label: &Operand,
    turns: &Operand,
    cells: &Operand,
    procedure: &Name,
    arguments: &Operands,
) -> Attempt<'s>
    ensures { IfOk result (λ turn. (longest : ℕ) → PlansBy (program_of script.now longest) task.now
        (line.Fork name.now label.now turns.now cells.now procedure.now arguments.now) turn) }
{
    let environment = task.environment();
    let Some(label) = operands::label(environment, label) else {
        return task.bad_type(alloc);
    };
    let Some(turns) = operands::count(environment, turns) else {
        return task.bad_type(alloc);
    };
    let Some(cells) = operands::count(environment, cells) else {
        return task.bad_type(alloc);
    };
    let Some(number) = script.procedure_named(procedure) else {
        return task.bad_type(alloc);
    };
    match operands::values(alloc, environment, arguments) {
        Ok(Some(values)) => forking(
            alloc,
            task,
            name,
            label,
            turns,
            cells,
            number as u32,
            values,
        ),
        Ok(None) => task.bad_type(alloc),
        Err(error) => Err(error),
    }
}

/// A child whose result can be waited for.
fn forking<'s>(
    alloc: Global,
    task: &Standing<'_>,
    name: &'s Name,
    label: &Label,
    turns: u32,
    cells: u32,
    number: u32,
    values: Values,
) -> Attempt<'s>
    ensures { IfOk result (λ planned. Is task.now planned
        (λ (lines : List Line). plan.forking (state_of lines task.now) name.now label.now turns
        cells (plan.birth_of number values label.now label.now turns (task.now.first + 1) cells))) }
{
    let birth = birth(alloc, task, label, turns, cells, number, values);
    match both(birth, label.copy(alloc)) {
        Ok((birth, held)) => {
            let onward = Onward::Fork(name, held, cells, turns);
            guarded_fork(alloc, task, label, birth, cells, turns, onward)
        }
        Err(error) => Err(error),
    }
}

/// A child whose result can be waited for, where the guard lets it go and there are enough numbers
/// and turns for it.
fn guarded_fork<'s>(
    alloc: Global,
    task: &Standing<'_>,
    label: &Label,
    birth: Held<Birth>,
    cells: u32,
    turns: u32,
    onward: Onward<'s>,
) -> Attempt<'s>
    ensures { IfOk result (GuardsChild task.now op.Fork label.now
        (act.Fork birth) cells turns onward.entry) }
{
    match task.verdict(alloc, Op::Fork, label) {
        Ok(Verdict::Go(current)) => {
            drop(current);
            child(alloc, task, Act::Fork(birth), cells, turns, onward)
        }
        Ok(Verdict::No(kind)) => {
            drop(onward);
            task.refused(alloc, Act::Fork(birth), kind)
        }
        Err(error) => {
            drop(birth);
            drop(onward);
            Err(error)
        }
    }
}

/// `spawn T C P A ..`
pub fn plan_spawn<'s>(
    alloc: Global,
    task: &Standing<'_>,
    script: &Script,
    turns: &Operand,
    cells: &Operand,
    procedure: &Name,
    arguments: &Operands,
) -> Attempt<'s>
    ensures { IfOk result (λ turn. (longest : ℕ) → PlansBy (program_of script.now longest) task.now
        (line.Spawn turns.now cells.now procedure.now arguments.now) turn) }
{
    let environment = task.environment();
    let Some(turns) = operands::count(environment, turns) else {
        return task.bad_type(alloc);
    };
    let Some(cells) = operands::count(environment, cells) else {
        return task.bad_type(alloc);
    };
    let Some(number) = script.procedure_named(procedure) else {
        return task.bad_type(alloc);
    };
    match operands::values(alloc, environment, arguments) {
        Ok(Some(values)) => spawning(alloc, task, turns, cells, number as u32, values),
        Ok(None) => task.bad_type(alloc),
        Err(error) => Err(error),
    }
}

/// A child that nobody waits for.
fn spawning<'s>(
    alloc: Global,
    task: &Standing<'_>,
    turns: u32,
    cells: u32,
    number: u32,
    values: Values,
) -> Attempt<'s>
    ensures { IfOk result (λ planned. Is task.now planned (λ (lines : List Line). plan.spawning
        (state_of lines task.now) turns cells (plan.birth_of number
        values task.now.clearance.now task.now.clearance.now turns (task.now.first + 1) cells))) }
{
    match birth(alloc, task, task.clearance, turns, cells, number, values) {
        Ok(birth) => {
            let onward = Onward::Spawn(cells, turns);
            child(alloc, task, Act::Spawn(birth), cells, turns, onward)
        }
        Err(error) => Err(error),
    }
}

/// The birth of a child whose result and clearance have this label.
fn birth(
    alloc: Global,
    task: &Standing<'_>,
    label: &Label,
    turns: u32,
    cells: u32,
    number: u32,
    values: Values,
) -> Result<Held<Birth>, NoMemory>
    ensures { IfOk result (λ birth. birth
        ≡ plan.birth_of number values label.now label.now turns (task.now.first + 1) cells) }
{
    let (result, clearance) = both(label.copy(alloc), label.copy(alloc))?;
    let birth = Birth {
        proc_at: number,
        args: values,
        result,
        clearance,
        turns,
        first: task.first + 1,
        cells,
    };
    Held::new(alloc, birth)
}

/// An act that makes a child, where there are enough numbers and turns for it.
fn child<'s>(
    alloc: Global,
    task: &Standing<'_>,
    act: Act,
    cells: u32,
    turns: u32,
    onward: Onward<'s>,
) -> Attempt<'s>
    ensures { IfOk result (MakesChild task.now act cells turns onward.entry) }
{
    let asked = u64::from(cells) + 1;
    let left = u64::from(task.cells);
    if asked <= left {
        child_turns(alloc, task, act, turns, onward)
    } else {
        drop(onward);
        task.refused(alloc, act, FaultKind::NoCells(asked, left))
    }
}

/// And where there are enough turns for it.
fn child_turns<'s>(
    alloc: Global,
    task: &Standing<'_>,
    act: Act,
    turns: u32,
    onward: Onward<'s>,
) -> Attempt<'s>
    ensures { IfOk result (GivesTurns task.now act turns onward.entry) }
{
    let asked = u64::from(turns);
    let left = u64::from(turns_for_children(task));
    if asked <= left {
        Ok(making(task, act, onward))
    } else {
        drop(onward);
        task.refused(alloc, act, FaultKind::ChildTurns(asked, left))
    }
}

/// The turns that a child can have: those that are left after this one.
fn turns_for_children(task: &Standing<'_>) -> u32
    ensures { result ≡ task.now.turns - 1 }
{
    task.turns.saturating_sub(1)
}
