//! What the tasks of a policy are given.

use lio_clauses::{Formula, NoMemory};
use lio_labels::Priv;
use lio_policy::{Arg, FileEntry, Policy, TaskEntry};
use lio_values::Plain;
use std::alloc::Global;

/// No list in a task's arguments is deeper: a text of JSON nests no deeper.
const DEEPEST: u32 = 127;

/// A thing that matters for what may flow.
#[derive(Clone, Copy)]
pub(crate) enum Thing<'p> {
    /// A privilege.
    Power(&'p Priv),
    /// The channel with this number.
    Channel(u32),
    /// The input with this number.
    Input(u32),
}

/// A thing that a task is given.
#[derive(Clone, Copy)]
pub(crate) struct Holding<'p> {
    pub task: &'p TaskEntry,
    pub thing: Thing<'p>,
}

/// What an argument gives itself, if it gives something that matters.
fn thing_of(arg: &Arg) -> Option<Thing<'_>> {
    match arg {
        Arg::Input(number) => Some(Thing::Input(*number)),
        Arg::Fixed(Plain::Power(power)) => Some(Thing::Power(power)),
        Arg::Fixed(Plain::ChanOf(handle)) => Some(Thing::Channel(handle.number)),
        Arg::Fixed(_) | Arg::Items(_) => None,
    }
}

/// Appends what arguments give a task themselves, and the lists that stand in them.
fn gather_arguments<'p>(
    holdings: &mut Vec<Holding<'p>>,
    lists: &mut Vec<&'p [Arg]>,
    task: &'p TaskEntry,
    args: &'p [Arg],
) -> Result<(), NoMemory> {
    for arg in args {
        if let Some(thing) = thing_of(arg) {
            holdings.push(Holding { task, thing })?;
        }
        if let Arg::Items(items) = arg {
            lists.push(items.as_slice())?;
        }
    }
    Ok(())
}

/// Appends what a task is given, in lists too.
fn gather_task<'p>(
    alloc: Global,
    holdings: &mut Vec<Holding<'p>>,
    task: &'p TaskEntry,
) -> Result<(), NoMemory> {
    let mut level = Vec::new(alloc);
    level.push(task.args.as_slice())?;
    for _depth in 0..DEEPEST {
        if level.is_empty() {
            break;
        }
        let mut deeper = Vec::new(alloc);
        for args in level.as_slice() {
            gather_arguments(holdings, &mut deeper, task, args)?;
        }
        level = deeper;
    }
    Ok(())
}

/// What the tasks of a policy are given, in their order.
pub(crate) fn gather(alloc: Global, policy: &Policy) -> Result<Vec<Holding<'_>>, NoMemory> {
    let mut holdings = Vec::new(alloc);
    for task in policy.tasks.as_slice() {
        gather_task(alloc, &mut holdings, task)?;
    }
    Ok(holdings)
}

/// Whether one of some clauses implies a clause.
fn implies_clause(clauses: &[u64], clause: u64) -> bool {
    for other in clauses {
        if *other & !clause == 0 {
            return true;
        }
    }
    false
}

/// Whether a privilege implies a clause of a formula that another doesn't imply.
fn adds(power: &Priv, other: &Formula, formula: &Formula) -> bool {
    for clause in formula.clauses() {
        if !implies_clause(other.clauses(), *clause)
            && implies_clause(power.power.clauses(), *clause)
        {
            return true;
        }
    }
    false
}

/// Whether a privilege has a part in what lets an input flow to a channel: it implies a clause of
/// the input's secrecy that the channel's doesn't imply, or one of the channel's integrity that the
/// input's doesn't.
pub(crate) fn takes_part(power: &Priv, input: &FileEntry, channel: &FileEntry) -> bool {
    adds(power, &channel.label.secrecy, &input.label.secrecy)
        || adds(power, &input.label.integrity, &channel.label.integrity)
}

/// Whether one of some privileges but this one implies a clause.
fn others_imply(powers: &[&Priv], power: &Priv, clause: u64) -> bool {
    for other in powers {
        if !is_same(other, power) && implies_clause(other.power.clauses(), clause) {
            return true;
        }
    }
    false
}

/// Whether a privilege alone of some implies a clause of a formula that another doesn't imply.
fn adds_alone(powers: &[&Priv], power: &Priv, other: &Formula, formula: &Formula) -> bool {
    for clause in formula.clauses() {
        if !implies_clause(other.clauses(), *clause)
            && implies_clause(power.power.clauses(), *clause)
            && !others_imply(powers, power, *clause)
        {
            return true;
        }
    }
    false
}

/// Whether an input doesn't flow to a channel without a privilege of some, by which together it
/// does.
pub(crate) fn is_needed(
    powers: &[&Priv],
    power: &Priv,
    input: &FileEntry,
    channel: &FileEntry,
) -> bool {
    adds_alone(powers, power, &channel.label.secrecy, &input.label.secrecy)
        || adds_alone(
            powers,
            power,
            &input.label.integrity,
            &channel.label.integrity,
        )
}

/// Whether two privileges are one.
pub(crate) fn is_same(one: &Priv, other: &Priv) -> bool {
    one.power.clauses() == other.power.clauses()
}

/// The privileges among what is given, each once.
pub(crate) fn powers<'p>(
    alloc: Global,
    holdings: &[Holding<'p>],
) -> Result<Vec<&'p Priv>, NoMemory> {
    let mut powers = Vec::new(alloc);
    for holding in holdings {
        if let Thing::Power(power) = holding.thing
            && !is_among(powers.as_slice(), power)
        {
            powers.push(power)?;
        }
    }
    Ok(powers)
}

/// Whether a privilege is among some.
fn is_among(powers: &[&Priv], power: &Priv) -> bool {
    for other in powers {
        if is_same(other, power) {
            return true;
        }
    }
    false
}

/// The tasks that hold a privilege, each once.
pub(crate) fn holders<'p>(
    alloc: Global,
    holdings: &[Holding<'p>],
    power: &Priv,
) -> Result<Vec<&'p TaskEntry>, NoMemory> {
    let mut tasks = Vec::new(alloc);
    for holding in holdings {
        if let Thing::Power(other) = holding.thing
            && is_same(other, power)
            && !is_last(tasks.as_slice(), holding.task)
        {
            tasks.push(holding.task)?;
        }
    }
    Ok(tasks)
}

/// Whether a task is the last of some.
fn is_last(tasks: &[&TaskEntry], task: &TaskEntry) -> bool {
    match tasks {
        [.., last] => last.name.bytes() == task.name.bytes(),
        [] => false,
    }
}
