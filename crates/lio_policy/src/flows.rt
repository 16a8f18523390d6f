//! What a policy lets flow from its inputs to its channels, whatever its scripts do.
ghost use Rattle.std.specs.Prelude.{◌≡◌, IfOk, map};
ghost use Rattle.std.specs.List.{flat_map};
ghost use Rattle.lio_clauses.specs.Without.{without};
ghost use Rattle.lio_labels.specs.Privilege.{flows_with};
ghost use Rattle.lio_policy.specs.Powers.{power_in, power_of, powers_of, task_powers};
ghost use Rattle.lio_policy.specs.Flows as spec;
ghost use Rattle.lio_policy.specs.Flows.{clauses_of, together};

use crate::policy::{Arg, FileEntry, Policy, TaskEntry};
use lio_clauses::{Formula, NoMemory};
use lio_values::{List, Plain};
use std::alloc::Global;

/// What may flow from an input to a channel. Source: Disjunction Category Labels, 2011.
#[derive(Clone, Copy, Debug, PartialEq, Eq)]
pub enum MayFlow {
    /// The input's label doesn't flow to the channel's, not even with all privileges that the
    /// policy gives its tasks. In rounds it changes no byte of the channel, whatever the script is.
    Never,
    /// It flows there with these privileges alone.
    OnlyByPrivilege,
    /// It flows there.
    May,
}

/// The clauses of a formula that a value, if it is a privilege, doesn't imply.
fn beyond_value(alloc: Global, formula: &Formula, value: &Plain) -> Result<Formula, NoMemory>
    ensures { IfOk result
        (λ left. left ≡ without formula.now (clauses_of (power_of (Arg.Fixed value.now)))) }
{
    match value {
        Plain::Power(power) => formula.without(alloc, &power.power),
        _ => formula.copy(alloc),
    }
}

/// The clauses of a formula that no privilege in an argument implies.
#[cycle(beyond)]
fn beyond_argument(alloc: Global, formula: &Formula, arg: &Arg) -> Result<Formula, NoMemory>
    ensures { IfOk result (λ left. left ≡ without formula.now (clauses_of (power_in arg.now))) }
{
    match arg {
        Arg::Input(_place) => formula.copy(alloc),
        Arg::Fixed(value) => beyond_value(alloc, formula, value),
        Arg::Items(args) => beyond_arguments(alloc, formula, args.as_slice()),
    }
}

/// The clauses of a formula that no privilege in some arguments implies.
#[cycle(beyond)]
fn beyond_arguments(alloc: Global, formula: &Formula, args: &[Arg]) -> Result<Formula, NoMemory>
    ensures { IfOk result
        (λ left. left ≡ without formula.now (clauses_of (flat_map power_in args.now))) }
{
    let mut left = formula.copy(alloc)?;
    for arg in args {
        left = beyond_argument(alloc, &left, arg)?;
    }
    Ok(left)
}

/// The clauses of a formula that no privilege of some tasks implies.
fn beyond_tasks(alloc: Global, formula: &Formula, tasks: &[TaskEntry]) -> Result<Formula, NoMemory>
    ensures { IfOk result
        (λ left. left ≡ without formula.now (clauses_of (flat_map task_powers tasks.now))) }
{
    let mut left = formula.copy(alloc)?;
    for task in tasks {
        left = beyond_arguments(alloc, &left, task.args.as_slice())?;
    }
    Ok(left)
}

/// Whether what is in an input may come to a channel with the privileges that the policy gives its
/// tasks, all together.
fn flows_by_privilege(
    alloc: Global,
    policy: &Policy,
    input: &FileEntry,
    channel: &FileEntry,
) -> Result<bool, NoMemory>
    ensures { IfOk result (λ flows. flows ≡ flows_with (together (powers_of policy.now))
        input.now.label channel.now.label) }
{
    let tasks = policy.tasks.as_slice();
    let secrecy = beyond_tasks(alloc, &input.label.secrecy, tasks)?;
    let integrity = beyond_tasks(alloc, &channel.label.integrity, tasks)?;
    Ok(channel.label.secrecy.implies(&secrecy) && input.label.integrity.implies(&integrity))
}

/// What may flow from an input to a channel by a policy.
pub fn may_flow(
    alloc: Global,
    policy: &Policy,
    input: &FileEntry,
    channel: &FileEntry,
) -> Result<MayFlow, NoMemory>
    ensures { IfOk result (λ flow. flow ≡ spec.may_flow policy.now input.now channel.now) }
{
    if input.label.flows(&channel.label) {
        return Ok(MayFlow::May);
    }
    if flows_by_privilege(alloc, policy, input, channel)? {
        return Ok(MayFlow::OnlyByPrivilege);
    }
    Ok(MayFlow::Never)
}

/// What may flow from each input to a channel, in the inputs' order.
fn row(alloc: Global, policy: &Policy, channel: &FileEntry) -> Result<List<MayFlow>, NoMemory>
    ensures { IfOk result (λ flows. flows
        ≡ map (λ input. spec.may_flow policy.now input channel.now) policy.now.inputs) }
{
    let mut flows = List::new(alloc);
    for input in policy.inputs.as_slice() {
        flows.push(may_flow(alloc, policy, input, channel)?)?;
    }
    Ok(flows)
}

/// What may flow from each input to each channel: a row for each channel, in the channels' order,
/// with an item for each input, in the inputs'.
pub fn what_may_flow(alloc: Global, policy: &Policy) -> Result<List<List<MayFlow>>, NoMemory>
    ensures { IfOk result (λ rows. rows ≡ spec.what_may_flow policy.now) }
{
    let mut rows = List::new(alloc);
    for channel in policy.channels.as_slice() {
        rows.push(row(alloc, policy, channel)?)?;
    }
    Ok(rows)
}
