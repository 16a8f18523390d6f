//! What an observer sees of nodes and of their tasks.
//!
//! Where `#[tactic(none)]` stands each goal has its answer, so no tactic is tried.
ghost use Rattle.std.specs.Prelude.{◌≡◌, IfOk, IsTrue, List, false};
ghost use Rattle.std.specs.Option.{option_map, option_map_or};
ghost use Rattle.lio_labels.specs.Flow.{flows};
ghost use Rattle.lio_values.specs.Erasure.{erase_value};
ghost use Rattle.lio_syntax.specs.Statements.{Procedure};
ghost use Rattle.lio_cells.specs.State.{label_of};
ghost use Rattle.lio_calculus.specs.Hiding.{hide_task};
ghost use Rattle.lio_calculus.specs.Erased.{hide_cell, hide_state, sees};
ghost use Rattle.lio_task.specs.Configuration.{cell_of};
ghost use Rattle.lio_task.specs.StateOf.{state_in};
ghost use Rattle.lio_erasure.specs.Low.{is_kept, low_cell_of, seen_cell};

use lio_cells::{Node, State};
use lio_clauses::{NoMemory, beside};
use lio_labels::Label;
use lio_task::{Holder, Task};
use lio_values::Value;
use std::alloc::Global;

/// Whether the label of a node flows to the observer's. Where nothing is, there is no label.
fn is_below(state: &State, observer: &Label) -> bool
    ensures { result ≡ option_map_or
        (λ label. flows label observer.now) (label_of state.now) false }
{
    match state {
        State::Absent => false,
        State::Ref(label, _) => label.flows(observer),
        State::Var(label, _) => label.flows(observer),
        State::Chan(label, _) => label.flows(observer),
        State::Job(label, _) => label.flows(observer),
    }
}

/// Whether an observer sees a cell: a job by its task's current label, and another node by its own.
#[tactic(none)]
pub(crate) fn is_seen(holder: &Holder, observer: &Label) -> bool
    ensures { (script : List Procedure) → result ≡ sees observer.now (cell_of script holder.now) }
{
    match &holder.task {
        Some(task) => task.label().flows(observer),
        None => is_below(holder.node.state(), observer),
    }
}

/// The value that a variable holds, if it is full, as an observer sees it.
fn hide_value(
    alloc: Global,
    value: &Option<Value>,
    observer: &Label,
) -> Result<Option<Value>, NoMemory>
    ensures { IfOk result (λ hidden. hidden ≡ option_map (erase_value observer.now) value.now) }
{
    match value {
        Some(value) => Ok(Some(value.erase(alloc, observer)?)),
        None => Ok(None),
    }
}

/// What a node holds, as an observer sees it: its values are erased.
#[tactic(none)]
fn hide_state(alloc: Global, state: &State, observer: &Label) -> Result<State, NoMemory>
    ensures { IfOk result (λ hidden. hidden ≡ hide_state observer.now state.now) }
{
    match state {
        State::Ref(label, value) => Ok(State::Ref(
            label.copy(alloc)?,
            value.erase(alloc, observer)?,
        )),
        State::Var(label, value) => Ok(State::Var(
            label.copy(alloc)?,
            hide_value(alloc, value, observer)?,
        )),
        State::Absent => Ok(State::Absent),
        State::Chan(_, _) => state.copy(alloc),
        State::Job(_, _) => state.copy(alloc),
    }
}

/// The task of a job, as an observer sees it.
fn hide_task(alloc: Global, task: &Option<Task>, observer: &Label) -> Result<Option<Task>, NoMemory>
    ensures { IfOk result (λ hidden. (script : List Procedure) → option_map (state_in script) hidden
        ≡ option_map (hide_task observer.now) (option_map (state_in script) task.now)) }
{
    match task {
        Some(task) => Ok(Some(task.erase(alloc, observer)?)),
        None => Ok(None),
    }
}

/// A holder, with its values erased.
pub(crate) fn hidden(alloc: Global, holder: &Holder, observer: &Label) -> Result<Holder, NoMemory>
    ensures { IfOk result (λ hidden. (script : List Procedure)
        → cell_of script hidden ≡ hide_cell observer.now (cell_of script holder.now)) }
{
    let state = hide_state(alloc, holder.node.state(), observer)?;
    let node = Node::of(alloc, state);
    let (node, task) = beside(node, hide_task(alloc, &holder.task, observer))?;
    Ok(Holder { node, task })
}

/// A holder, where an observer sees it.
#[tactic(none)]
pub(crate) fn seen(holder: Holder, observer: &Label) -> Option<Holder>
    ensures seen { (script : List Procedure)
        → low_cell_of script result ≡ seen_cell observer.now (cell_of script holder) }
    ensures kept { IsTrue (is_kept result) }
{
    if is_seen(&holder, observer) {
        Some(holder)
    } else {
        drop(holder);
        None
    }
}
