//! Tasks as they begin, with their jobs.
ghost use Rattle.std.specs.Prelude.{◌≡◌, [], IfOk, None};
ghost use Rattle.lio_cells.specs.Node.{node_of};
ghost use Rattle.lio_cells.specs.declared.state.State.{State};
ghost use Rattle.lio_cells.specs.declared.state.State.TheVariants as state;
ghost use Rattle.lio_task.specs.Configuration.{cell_of};
ghost use Rattle.lio_task.specs.StateOf.{state_in};
ghost use Rattle.lio_start.specs.Start.{job_cell, task_of};
ghost use Rattle.lio_start.specs.Making.{Bears, CanBegin};

use crate::inputs::arguments;
use lio_cells::{Node, State};
use lio_clauses::NoMemory;
use lio_labels::Label;
use lio_policy::TaskEntry;
use lio_syntax::Script;
use lio_task::{Holder, Task};
use lio_values::{Birth, Values};
use std::alloc::Global;

/// What a task is born with, whose range of numbers begins at the given one.
fn birth(
    alloc: Global,
    script: &Script,
    inputs: &Values,
    first: u32,
    entry: &TaskEntry,
) -> Result<Birth, NoMemory>
    requires { CanBegin script.now inputs.now first entry.now }
    ensures { IfOk result (λ birth. Bears script.now inputs.now first entry.now birth) }
{
    let Some(number) = script.procedure_number(entry.proc_name.bytes()) else {
        unreachable!()
    };
    let args = arguments(alloc, inputs, entry.args.as_slice())?;
    let result = entry.clearance.copy(alloc)?;
    let clearance = entry.clearance.copy(alloc)?;
    Ok(Birth {
        proc_at: number as u32,
        args,
        result,
        clearance,
        turns: entry.turns,
        first,
        cells: entry.cells,
    })
}

/// A task as it begins, whose range of numbers begins at the given one.
fn task(
    alloc: Global,
    script: &Script,
    inputs: &Values,
    first: u32,
    entry: &TaskEntry,
) -> Result<Task, NoMemory>
    requires { CanBegin script.now inputs.now first entry.now }
    ensures { IfOk result (λ task. state_in script.now task
        ≡ task_of script.now inputs.now first entry.now) }
{
    let birth = birth(alloc, script, inputs, first, entry)?;
    let task = Task::of_birth(alloc, &birth, &entry.label, script);
    drop(birth);
    task
}

/// A job without a result, of which the result has a label.
fn job_node(alloc: Global, label: &Label) -> Result<Node, NoMemory>
    ensures { IfOk result (λ node. node ≡ node_of (state.Job label.now None)) }
{
    let label = label.copy(alloc)?;
    Ok(Node::of(alloc, State::Job(label, None)))
}

/// A job with its task, whose range of numbers begins at the given one.
pub(crate) fn job(
    alloc: Global,
    script: &Script,
    inputs: &Values,
    first: u32,
    entry: &TaskEntry,
) -> Result<Holder, NoMemory>
    requires { CanBegin script.now inputs.now first entry.now }
    ensures cell { IfOk result (λ holder. cell_of script.now holder
        ≡ job_cell script.now inputs.now first entry.now) }
    ensures fresh { IfOk result (λ holder. holder.node.log ≡ []) }
{
    let node = job_node(alloc, &entry.clearance)?;
    match task(alloc, script, inputs, first, entry) {
        Ok(task) => Ok(Holder {
            node,
            task: Some(task),
        }),
        Err(refused) => {
            drop(node);
            Err(refused)
        }
    }
}
