//! Reading a policy: its rules in their order.
ghost use Rattle.std.specs.Prelude.{◌≡◌, ◌⊎◌, IfOk, IfErr, Ok, Err};
ghost use Rattle.std.specs.List.{filter_map};
ghost use Rattle.lio_policy_draft.specs.Failing.{entries, Passes};
ghost use Rattle.lio_policy.specs.Rules as spec;
ghost use Rattle.lio_policy.specs.Rules.{is_version, version_fails, file_entry, file_names};
ghost use Rattle.lio_policy.specs.Rules.{tasks_of, task_entry, longest_of, version_of};
ghost use Rattle.lio_policy.specs.Verdict.{Gives, Obeys, declarations_fault, judged, policy_of};
ghost use Rattle.lio_policy.specs.Verdict.{uses_fault};

use crate::arguments::{Known, read_arguments};
use crate::files::check_files;
use crate::labelled::LabelledTask;
use crate::labels::{Labelled, check_flow, read_labels};
use crate::limits::check_limits;
use crate::names::{Named, read_names};
use crate::policy::{FileEntry, Policy, TaskEntries};
use lio_policy_draft::{Draft, PolicyFault, fault_at, read_draft};
use std::alloc::Global;

/// The number of the rule on the version.
const VERSION: u32 = 3;

/// Whether a version is 1 or 2.
fn is_version(version: Option<u64>) -> bool
    ensures { result ≡ is_version version }
{
    match version {
        Some(number) => number == 1 || number == 2,
        None => false,
    }
}

/// The version, which is 1 or 2.
fn check_version(draft: &Draft) -> Result<u32, PolicyFault>
    ensures { Passes VERSION 0 (entries (version_fails draft.now)) result
        (λ version. version ≡ version_of draft.now) }
{
    if is_version(draft.version) {
        Ok(draft.version.unwrap_or(0) as u32)
    } else {
        Err(fault_at(VERSION, 0))
    }
}

/// What a draft declares: its version, its names, and what has labels.
#[derive(Drop)]
struct Declarations {
    version: u32,
    named: Named,
    labelled: Labelled,
}

/// What a draft declares, by the rules on its version, names, labels and flow.
fn read_declarations(alloc: Global, draft: &Draft) -> Result<Declarations, PolicyFault>
    ensures { Obeys (declarations_fault draft.now) result
        (λ made. (made.version ≡ version_of draft.now)
        × (made.named.names ≡ draft.now.principals)
        × (made.named.channels ≡ file_names draft.now.channels)
        × (made.named.inputs ≡ file_names draft.now.inputs)
        × (made.labelled.channels ≡ filter_map (file_entry draft.now.principals) draft.now.channels)
        × (made.labelled.inputs ≡ filter_map (file_entry draft.now.principals) draft.now.inputs)
        × (made.labelled.tasks ≡ tasks_of draft.now)) }
{
    let version = check_version(draft)?;
    let named = read_names(alloc, draft)?;
    let labelled = read_labels(alloc, draft, &named.names)?;
    check_flow(draft, labelled.tasks.as_slice())?;
    Ok(Declarations {
        version,
        named,
        labelled,
    })
}

/// What a draft does with what it declares: its tasks with their arguments, and its longest text.
#[derive(Drop)]
struct Uses {
    tasks: TaskEntries,
    longest: u32,
}

/// What a draft does with what it declares, by the rules on arguments, limits and files.
fn read_uses(
    alloc: Global,
    draft: &Draft,
    known: &Known,
    inputs: &[FileEntry],
    tasks: &[LabelledTask],
) -> Result<Uses, PolicyFault>
    requires same { known.now ≡ spec.known draft.now }
    requires inputs { inputs.now ≡ spec.inputs_of draft.now }
    requires labelled { tasks.now ≡ tasks_of draft.now }
    ensures { Obeys (uses_fault draft.now) result
        (λ made. (made.tasks ≡ filter_map (task_entry (spec.known draft.now)) (tasks_of draft.now))
        × (made.longest ≡ longest_of draft.now)) }
{
    let tasks = read_arguments(alloc, draft, known, tasks)?;
    let longest = check_limits(draft, inputs, tasks.as_slice())?;
    check_files(alloc, draft)?;
    Ok(Uses { tasks, longest })
}

/// The policy of a draft.
fn judge(alloc: Global, draft: &Draft) -> Result<Policy, PolicyFault>
    ensures { Gives (judged draft.now) result }
{
    let Declarations {
        version,
        named,
        labelled,
    } = read_declarations(alloc, draft)?;
    let known = Known {
        channel_names: named.channels,
        channels: labelled.channels,
        input_names: named.inputs,
    };
    let uses = read_uses(
        alloc,
        draft,
        &known,
        labelled.inputs.as_slice(),
        labelled.tasks.as_slice(),
    )?;
    Ok(Policy {
        version,
        longest: uses.longest,
        names: named.names,
        channels: known.into_channels(),
        inputs: labelled.inputs,
        tasks: uses.tasks,
    })
}

/// The policy that a text is, or the first rule that it breaks with the first entry that does.
pub fn read_policy(alloc: Global, bytes: &[u8]) -> Result<Policy, PolicyFault>
    ensures ok { IfOk result (λ policy. policy_of bytes.now ≡ Ok policy) }
    ensures fault { IfErr result (λ fault. (fault ≡ PolicyFault.NoMemory)
        ⊎ (policy_of bytes.now ≡ Err fault)) }
{
    let draft = read_draft(alloc, bytes)?;
    judge(alloc, &draft)
}
