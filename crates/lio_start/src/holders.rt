//! Holders of a first configuration, put behind each other: those of the channels, of the tasks,
//! and of the numbers that the tasks own.
ghost use Rattle.std.specs.Prelude.{◌≡◌, ◌<◌, ◌^◌, [], IfOk, OnOk, List, map, replicate};
ghost use Rattle.lio_syntax.specs.Statements.{Procedure};
ghost use Rattle.lio_calculus.specs.Step.{blank};
ghost use Rattle.lio_task.specs.Configuration.{cell_of};
ghost use Rattle.lio_task.specs.Logs.{HaveNoLogs};
ghost use Rattle.lio_start.specs.Start.{cells_in_all, channel_cell, job_cells};
ghost use Rattle.lio_start.specs.Making.{Adds, CanBeginAll};

use crate::beginning::job;
use lio_cells::{Bytes, Node, State};
use lio_clauses::NoMemory;
use lio_policy::{FileEntry, TaskEntry};
use lio_syntax::Script;
use lio_task::Holder;
use lio_values::Values;
use std::alloc::Global;

/// A channel that has received nothing.
fn channel(alloc: Global, channel: &FileEntry) -> Result<Holder, NoMemory>
    ensures cell { IfOk result (λ holder. (script : List Procedure)
        → cell_of script holder ≡ channel_cell channel.now) }
    ensures fresh { IfOk result (λ holder. holder.node.log ≡ []) }
{
    let label = channel.label.copy(alloc)?;
    let node = Node::of(alloc, State::Chan(label, Bytes::new()));
    Ok(Holder { node, task: None })
}

/// What stands at a number that holds nothing.
fn free(alloc: Global) -> Holder
    ensures cell { (script : List Procedure) → cell_of script result ≡ blank }
    ensures fresh { result.node.log ≡ [] }
{
    let node = Node::of(alloc, State::Absent);
    Holder { node, task: None }
}

/// Puts the channels behind the holders, in their order.
pub(crate) fn add_channels(
    alloc: Global,
    channels: &[FileEntry],
    holders: &mut Vec<Holder>,
) -> Result<(), NoMemory>
    ensures adds { OnOk result ((script : List Procedure)
        → Adds script holders.old.items holders.new.items (map channel_cell channels.now)) }
    ensures fresh { OnOk result
        (HaveNoLogs holders.old.items → HaveNoLogs holders.new.items) }
{
    for entry in channels {
        holders.push(channel(alloc, entry)?)?;
    }
    Ok(())
}

/// Puts the jobs of tasks behind the holders, in their order. The range of the first task begins at
/// the given number, and each other one's behind the range before it.
pub(crate) fn add_jobs(
    alloc: Global,
    script: &Script,
    inputs: &Values,
    first: u32,
    tasks: &[TaskEntry],
    holders: &mut Vec<Holder>,
) -> Result<(), NoMemory>
    requires { CanBeginAll script.now inputs.now first tasks.now }
    ensures adds { OnOk result (Adds script.now holders.old.items holders.new.items
        (job_cells script.now inputs.now first tasks.now)) }
    ensures fresh { OnOk result
        (HaveNoLogs holders.old.items → HaveNoLogs holders.new.items) }
{
    let mut next = first;
    for entry in tasks {
        holders.push(job(alloc, script, inputs, next, entry)?)?;
        next += entry.cells;
    }
    Ok(())
}

/// Puts so many numbers behind the holders that hold nothing.
pub(crate) fn add_free(alloc: Global, count: u32, holders: &mut Vec<Holder>) -> Result<(), NoMemory>
    ensures adds { OnOk result ((script : List Procedure)
        → Adds script holders.old.items holders.new.items (replicate count blank)) }
    ensures fresh { OnOk result
        (HaveNoLogs holders.old.items → HaveNoLogs holders.new.items) }
{
    for _n in 0..count {
        holders.push(free(alloc))?;
    }
    Ok(())
}

/// How many numbers tasks own together.
pub(crate) fn cells_in_all(tasks: &[TaskEntry]) -> u32
    requires { cells_in_all tasks.now < 2 ^ 32 }
    ensures { result ≡ cells_in_all tasks.now }
{
    let mut cells = 0;
    for task in tasks {
        cells += task.cells;
    }
    cells
}
