//! What a journal tells of each node.

use lio_clauses::NoMemory;
use lio_policy::Policy;
use lio_values::{Act, Content, Entry, Fault, Reply};
use std::alloc::Global;

/// What a journal tells of a node. A turn is named by its place in the journal.
#[derive(Clone, Copy)]
pub(crate) struct Trace {
    /// The turn that gave birth to it, where it is a child.
    pub born: Option<usize>,
    /// How many turns it took.
    pub turns: usize,
    /// Its last turn so far.
    pub last: Option<usize>,
    /// The turn before that one.
    pub before: Option<usize>,
    /// How many tasks waited for it, were told a fault and went on.
    pub handlers: usize,
}

/// What is known of a node that no turn has met.
const NOTHING: Trace = Trace {
    born: None,
    turns: 0,
    last: None,
    before: None,
    handlers: 0,
};

/// The fault in a content, if there is one.
fn fault_in(content: &Content) -> Option<&Fault> {
    match content {
        Content::Faulted(fault) => Some(fault.get()),
        Content::Kept(_) | Content::Hidden => None,
    }
}

/// The fault by which a turn ended its task, if it did so.
pub(crate) fn fault_of(entry: &Entry) -> Option<&Fault> {
    match &entry.act {
        Act::Ended(content) => fault_in(content.get()),
        _ => None,
    }
}

/// The fault that a turn was told of a task for which it waited, if it was told one.
pub(crate) fn told_fault(entry: &Entry) -> Option<&Fault> {
    match (&entry.act, &entry.reply) {
        (Act::Wait, Reply::Told(content)) => fault_in(content.get()),
        _ => None,
    }
}

/// The task whose fault a turn was told, if it was told one.
pub(crate) fn fault_source(entry: &Entry) -> Option<u32> {
    match told_fault(entry) {
        Some(_) => entry.target,
        None => None,
    }
}

/// The task to which a turn gave birth, if it did.
fn child_of(entry: &Entry) -> Option<u32> {
    match &entry.act {
        Act::Fork(_) | Act::Spawn(_) => entry.target,
        _ => None,
    }
}

/// The node with a number, where there is one.
fn node(traces: &mut Vec<Trace>, number: Option<u32>) -> Option<&mut Trace> {
    traces.get_mut(number? as usize)
}

/// Notes who took a turn, and gives that task's turn before it.
fn note_actor(traces: &mut Vec<Trace>, place: usize, entry: &Entry) -> Option<usize> {
    let trace = node(traces, Some(entry.actor))?;
    trace.turns = trace.turns.saturating_add(1);
    trace.before = trace.last;
    trace.last = Some(place);
    trace.before
}

/// Notes the turn at a place.
fn note_turn(traces: &mut Vec<Trace>, entries: &[Entry], place: usize, entry: &Entry) {
    let before = note_actor(traces, place, entry);
    if let Act::Step = &entry.act {
        return;
    }
    if let Some(child) = node(traces, child_of(entry)) {
        child.born = Some(place);
    }
    if let Some(task) = node(traces, fault_source(entry)) {
        task.handlers = task.handlers.saturating_add(1);
    }
    // Who ends by a fault didn't catch the one that it was told in its turn before.
    if fault_of(entry).is_some()
        && let Some(before) = before
        && let Some(told) = entries.get(before)
        && let Some(task) = node(traces, fault_source(told))
    {
        task.handlers = task.handlers.saturating_sub(1);
    }
}

/// How many nodes a run of a policy can have.
fn node_count(policy: &Policy) -> usize {
    let mut count = policy.channels.as_slice().len();
    for task in policy.tasks.as_slice() {
        count = count.saturating_add(task.cells as usize).saturating_add(1);
    }
    count
}

/// What a journal tells of each node, by number.
pub(crate) fn traces_of(
    alloc: Global,
    policy: &Policy,
    entries: &[Entry],
) -> Result<Vec<Trace>, NoMemory> {
    let mut traces = Vec::new(alloc);
    for _node in 0..node_count(policy) {
        traces.push(NOTHING)?;
    }
    for (place, entry) in entries.iter().enumerate() {
        note_turn(&mut traces, entries, place, entry);
    }
    Ok(traces)
}
