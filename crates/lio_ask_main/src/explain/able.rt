//! What no task of a policy can do.

use crate::explain::holdings::{Holding, Thing, takes_part};
use lio_labels::Priv;
use lio_policy::{FileEntry, MayFlow, Policy, TaskEntry};
use lio_values::List;

/// Why no task can do something.
#[derive(Clone, Copy)]
pub(crate) enum Lack {
    /// No task is given it.
    NotGiven,
    /// It flows to the clearance of no task that is given it.
    AboveClearances,
    /// No task that is given it, and to whose clearance it flows, begins with its integrity.
    NoIntegrity,
    /// No such task begins at a label that flows to it.
    BeginsAbove,
}

/// How far a task comes on its way to a channel.
fn lack_of_task(task: &TaskEntry, channel: &FileEntry) -> Option<Lack> {
    if !channel.label.flows(&task.clearance) {
        return Some(Lack::AboveClearances);
    }
    if !task.label.integrity.implies(&channel.label.integrity) {
        return Some(Lack::NoIntegrity);
    }
    if !task.label.flows(&channel.label) {
        return Some(Lack::BeginsAbove);
    }
    None
}

/// How far a lack lets a task come: the more, the further.
fn rank(lack: Lack) -> u32 {
    match lack {
        Lack::NotGiven => 0,
        Lack::AboveClearances => 1,
        Lack::NoIntegrity => 2,
        Lack::BeginsAbove => 3,
    }
}

/// The lack of whoever comes further.
fn further(one: Lack, other: Lack) -> Lack {
    if rank(one) < rank(other) { other } else { one }
}

/// Why no task can send to the channel at a place, if none can.
pub(crate) fn lack_of_channel(
    holdings: &[Holding<'_>],
    place: usize,
    channel: &FileEntry,
) -> Option<Lack> {
    let mut lack = Lack::NotGiven;
    for holding in holdings {
        if let Thing::Channel(given) = holding.thing
            && given as usize == place
        {
            lack = further(lack, lack_of_task(holding.task, channel)?);
        }
    }
    Some(lack)
}

/// Whether a task may learn an input by a privilege that it is given.
fn learns_by_power(holdings: &[Holding<'_>], task: &TaskEntry, input: &FileEntry) -> bool {
    for holding in holdings {
        if let Thing::Power(power) = holding.thing
            && holding.task.name.bytes() == task.name.bytes()
            && input.label.flows_with(power, &task.clearance)
        {
            return true;
        }
    }
    false
}

/// Why no task can learn the input at a place, if none can.
pub(crate) fn lack_of_input(
    holdings: &[Holding<'_>],
    place: usize,
    input: &FileEntry,
) -> Option<Lack> {
    let mut lack = Lack::NotGiven;
    for holding in holdings {
        if let Thing::Input(given) = holding.thing
            && given as usize == place
        {
            if input.label.flows(&holding.task.clearance)
                || learns_by_power(holdings, holding.task, input)
            {
                return None;
            }
            lack = Lack::AboveClearances;
        }
    }
    Some(lack)
}

/// Whether a privilege has a part in what lets an input of a policy flow to a channel that has this
/// row of the table.
fn lets_to(policy: &Policy, power: &Priv, channel: &FileEntry, flows: &[MayFlow]) -> bool {
    for (input, flow) in policy.inputs.as_slice().iter().zip(flows.iter()) {
        if let MayFlow::OnlyByPrivilege = flow
            && takes_part(power, input, channel)
        {
            return true;
        }
    }
    false
}

/// Whether a privilege has a part in what lets something flow, by the table of a policy.
pub(crate) fn lets_something(policy: &Policy, rows: &[List<MayFlow>], power: &Priv) -> bool {
    for (channel, row) in policy.channels.as_slice().iter().zip(rows.iter()) {
        if lets_to(policy, power, channel, row.as_slice()) {
            return true;
        }
    }
    false
}
