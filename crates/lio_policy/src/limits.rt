//! Rule 8: limits.
ghost use Rattle.std.specs.Prelude.{◌≡◌, ◌<◌, ◌≤◌, ◌^◌, ◌||◌, nat_le, nat_lt, [], slice_get};
ghost use Rattle.std.specs.List.{list_any};
ghost use Rattle.lio_policy_draft.specs.Failing.{entries, Passes};
ghost use Rattle.lio_policy.specs.Rules as spec;
ghost use Rattle.lio_policy.specs.Rules.{behind, limits_fail, task_fails, is_past, is_too_long};
ghost use Rattle.lio_policy.specs.Lists.{extent as spec_extent};

use crate::lists::extent;
use crate::policy::{Arg, FileEntry, TaskEntry};
use lio_policy_draft::{
    ArgDraft, Draft, FileDraft, Limits, PolicyFault, TaskDraft, fault_at, first_channel,
    first_input, first_task, limits_of,
};

/// The rule's number.
const RULE: u32 = 8;

const MOST_WORK: u128 = 1_073_741_824;

const MOST_ARGS: usize = 8;

const MOST_INPUTS: u64 = 4;

/// The turns of all tasks.
fn turns_in_all(tasks: &[TaskDraft]) -> u128
    ensures turns { result ≡ spec.turns_in_all tasks.now }
    ensures small { result < 2 ^ 97 }
{
    let mut turns = 0;
    for task in tasks {
        turns += task.turns as u128;
    }
    turns
}

/// Whether the longest text is out of range, or the tasks' turns times it are.
fn work_fails(limits: Limits, longest: u64, tasks: &[TaskDraft]) -> bool
    requires { limits.longest ≤ 262144 }
    ensures { result ≡ spec.work_fails limits longest tasks.now }
{
    let is_longest = (1..=limits.longest).contains(&longest);
    !(is_longest && turns_in_all(tasks) * longest as u128 <= MOST_WORK)
}

/// Tests that there are at most so many entries from the given one on.
fn check_count(most: usize, files: &[FileDraft], first: u128) -> Result<(), PolicyFault>
    requires { first < 2 ^ 67 }
    ensures { Passes RULE first (behind (is_past most) [] files.now) result (λ _. Unit {0}) }
{
    if files.len() > most {
        return Err(fault_at(RULE, first + most as u128));
    }
    Ok(())
}

/// Whether an argument is a text that is too long.
fn is_too_long(arg: &ArgDraft, longest: u64) -> bool
    ensures { result ≡ is_too_long longest arg.now }
{
    match arg {
        ArgDraft::Bytes(text) => text.bytes().len() as u64 > longest,
        _ => false,
    }
}

/// Whether one of the arguments is a text that is too long.
fn has_long_text(args: &[ArgDraft], longest: u64) -> bool
    ensures { result ≡ list_any (is_too_long longest) args.now }
{
    args.iter().any(|arg| is_too_long(arg, longest))
}

/// Whether a task has too many arguments, or one that is too long.
fn has_wrong_args(task: &TaskDraft, longest: u64) -> bool
    ensures { result ≡ spec.args_fail longest task.now }
{
    let args = task.args.as_slice();
    args.len() > MOST_ARGS || has_long_text(args, longest)
}

/// Whether an argument is too deep, has too many inputs, or is a list that is too large.
fn is_large(limits: Limits, longest: u64, inputs: &[FileEntry], arg: &Arg) -> bool
    requires deep { limits.depth ≤ 8 }
    requires long { longest ≤ 262144 }
    ensures { result ≡ spec.is_large limits longest (spec_extent inputs.now arg.now) }
{
    let counted = extent(inputs, arg);
    counted.depth > limits.depth
        || counted.inputs > MOST_INPUTS
        || (counted.depth > 0 && counted.size > longest)
}

/// Whether one of the arguments is too large.
fn has_large(limits: Limits, longest: u64, inputs: &[FileEntry], args: &[Arg]) -> bool
    requires deep { limits.depth ≤ 8 }
    requires long { longest ≤ 262144 }
    ensures { result
        ≡ list_any (λ a. spec.is_large limits longest (spec_extent inputs.now a)) args.now }
{
    args.iter()
        .any(|arg| is_large(limits, longest, inputs, arg))
}

/// Whether the task at a place, if there is one, has an argument that is too large.
fn lists_fail(
    limits: Limits,
    longest: u64,
    inputs: &[FileEntry],
    entries: &[TaskEntry],
    place: usize,
) -> bool
    requires deep { limits.depth ≤ 8 }
    requires long { longest ≤ 262144 }
    ensures { result
        ≡ spec.lists_fail limits longest inputs.now (slice_get entries.now place) }
{
    match entries.get(place) {
        Some(entry) => has_large(limits, longest, inputs, entry.args.as_slice()),
        None => false,
    }
}

/// Whether a task fails that stands at a place, where the turns and the cells up to it are these,
/// and `large` is whether its lists fail.
fn task_fails(
    limits: Limits,
    place: usize,
    turns: u64,
    cells: u64,
    task: &TaskDraft,
    longest: u64,
    large: bool,
) -> bool
    ensures { result ≡ (nat_le limits.entries place || nat_lt limits.turns turns
        || nat_lt limits.cells cells || spec.args_fail longest task.now || large) }
{
    place >= limits.entries
        || turns > limits.turns
        || cells > limits.cells
        || has_wrong_args(task, longest)
        || large
}

/// Tests that the tasks, which are entries from the given one on, keep to the limits.
fn check_tasks(
    limits: Limits,
    tasks: &[TaskDraft],
    longest: u64,
    inputs: &[FileEntry],
    entries: &[TaskEntry],
    first: u128,
) -> Result<(), PolicyFault>
    requires small { first < 2 ^ 67 }
    requires few { (limits.turns ≤ 4194304) × (limits.cells ≤ 262144) }
    requires deep { limits.depth ≤ 8 }
    requires long { longest ≤ 262144 }
    ensures { Passes RULE first
        (behind (task_fails limits longest inputs.now entries.now) [] tasks.now) result
        (λ _. Unit {0}) }
{
    let mut turns = 0u64;
    let mut cells = 0u64;
    for (place, task) in tasks.iter().enumerate() {
        turns += task.turns as u64;
        cells += task.cells as u64;
        let large = lists_fail(limits, longest, inputs, entries, place);
        if task_fails(limits, place, turns, cells, task, longest, large) {
            return Err(fault_at(RULE, first + place as u128));
        }
    }
    Ok(())
}

/// The longest text of a draft that keeps to the limits, with its inputs and the entries of its
/// tasks.
pub(crate) fn check_limits(
    draft: &Draft,
    inputs: &[FileEntry],
    tasks: &[TaskEntry],
) -> Result<u32, PolicyFault>
    requires inputs { inputs.now ≡ spec.inputs_of draft.now }
    requires tasks { tasks.now ≡ spec.entries_of draft.now }
    ensures { Passes RULE 0 (entries (limits_fail draft.now)) result
        (λ longest. longest ≡ spec.longest_of draft.now) }
{
    let limits = limits_of(draft.version.unwrap_or(0));
    let longest = draft.longest.unwrap_or(0);
    if work_fails(limits, longest, draft.tasks.as_slice()) {
        return Err(fault_at(RULE, 0));
    }
    check_count(
        limits.entries,
        draft.channels.as_slice(),
        first_channel(draft),
    )?;
    check_count(limits.entries, draft.inputs.as_slice(), first_input(draft))?;
    let first = first_task(draft);
    check_tasks(
        limits,
        draft.tasks.as_slice(),
        longest,
        inputs,
        tasks,
        first,
    )?;
    Ok(longest as u32)
}
