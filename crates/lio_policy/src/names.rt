//! Rule 4: names.
ghost use Rattle.std.specs.Prelude.{◌≡◌, ◌<◌, ◌^◌, ◌++◌, [], ◌∷◌, false, Ok, IfOk};
ghost use Rattle.lio_policy_draft.specs.Failing.{entries, Passes};
ghost use Rattle.lio_policy.specs.Rules.{behind, principal_fails, key_fails, no_name, names_fail};
ghost use Rattle.lio_policy.specs.Rules.{file_names, task_names};

use crate::keys::{Key, add_keys};
use crate::table::Table;
use lio_clauses::{NameFault, Names, NoMemory, name_fault};
use lio_policy_draft::{
    Draft, FIRST_PRINCIPAL, FileDraft, PolicyFault, TaskDraft, fault_at, first_channel,
    first_input, first_task,
};
use lio_values::Text;
use std::alloc::Global;

/// The rule's number.
const RULE: u32 = 4;

/// The principals, and the names of the channels and of the inputs.
#[derive(Drop)]
pub(crate) struct Named {
    pub(crate) names: Names,
    pub(crate) channels: Table,
    pub(crate) inputs: Table,
}

/// Adds a name to the names, and answers whether it fails as a principal's. One that does not is
/// last then.
fn add_name(alloc: Global, names: &mut Names, name: &[u8]) -> Result<bool, NoMemory>
    ensures fails { IfOk result (λ fails. fails ≡ principal_fails names.old name.now) }
    ensures added { result ≡ Ok false → names.new ≡ names.old ++ name.now ∷ [] }
{
    match names.add(alloc, name) {
        Ok(_number) => Ok(false),
        Err(NameFault::NoMemory) => Err(NoMemory),
        Err(_fault) => Ok(true),
    }
}

/// Adds principals to names that are none yet, as entries from the given one on, up to the first
/// that fails.
fn add_all(
    alloc: Global,
    names: &mut Names,
    principals: &[Text],
    first: u128,
) -> Result<(), PolicyFault>
    requires none { names.old ≡ [] }
    requires small { first < 2 ^ 67 }
    ensures { Passes RULE first (behind principal_fails [] principals.now) result
        (λ _. names.new ≡ principals.now) }
{
    for (place, name) in principals.iter().enumerate() {
        if add_name(alloc, names, name.bytes())? {
            return Err(fault_at(RULE, first + place as u128));
        }
    }
    Ok(())
}

/// The principals with these names, which are entries from the given one on.
fn add_principals(alloc: Global, principals: &[Text], first: u128) -> Result<Names, PolicyFault>
    requires { first < 2 ^ 67 }
    ensures { Passes RULE first (behind principal_fails [] principals.now) result
        (λ names. names ≡ principals.now) }
{
    let mut names = Names::new(alloc)?;
    add_all(alloc, &mut names, principals, first)?;
    Ok(names)
}

/// Whether these bytes are no name.
fn is_no_name(bytes: &[u8]) -> bool
    ensures { result ≡ no_name bytes.now }
{
    name_fault(bytes).is_some()
}

/// The names of entries.
struct ByName;

impl Key<FileDraft> for ByName {
    ghost key_of = { λ _ file. file.name };

    ghost is_wrong = { λ _. no_name };

    fn key<'t>(&self, item: &'t FileDraft) -> &'t [u8] {
        item.name.bytes()
    }

    fn is_bad(&self, key: &[u8]) -> bool {
        is_no_name(key)
    }
}

impl Key<TaskDraft> for ByName {
    ghost key_of = { λ _ task. task.name };

    ghost is_wrong = { λ _. no_name };

    fn key<'t>(&self, item: &'t TaskDraft) -> &'t [u8] {
        item.name.bytes()
    }

    fn is_bad(&self, key: &[u8]) -> bool {
        is_no_name(key)
    }
}

/// The names of files, which are entries from the given one on.
fn read_file_names(alloc: Global, files: &[FileDraft], first: u128) -> Result<Table, PolicyFault>
    requires { first < 2 ^ 67 }
    ensures { Passes RULE first (behind (key_fails no_name) [] (file_names files.now)) result
        (λ table. table ≡ file_names files.now) }
{
    let mut table = Table::new(alloc);
    add_keys(alloc, &ByName, &mut table, files, RULE, first)?;
    Ok(table)
}

/// Tests the names of tasks, which are entries from the given one on.
fn check_task_names(alloc: Global, tasks: &[TaskDraft], first: u128) -> Result<(), PolicyFault>
    requires { first < 2 ^ 67 }
    ensures { Passes RULE first (behind (key_fails no_name) [] (task_names tasks.now)) result
        (λ _. Unit {0}) }
{
    let mut table = Table::new(alloc);
    add_keys(alloc, &ByName, &mut table, tasks, RULE, first)
}

/// The names of a draft.
pub(crate) fn read_names(alloc: Global, draft: &Draft) -> Result<Named, PolicyFault>
    ensures { Passes RULE 0 (entries (names_fail draft.now)) result
        (λ named. (named.names ≡ draft.now.principals)
        × (named.channels ≡ file_names draft.now.channels)
        × (named.inputs ≡ file_names draft.now.inputs)) }
{
    let names = add_principals(alloc, draft.principals.as_slice(), FIRST_PRINCIPAL)?;
    let channels = read_file_names(alloc, draft.channels.as_slice(), first_channel(draft))?;
    let inputs = read_file_names(alloc, draft.inputs.as_slice(), first_input(draft))?;
    check_task_names(alloc, draft.tasks.as_slice(), first_task(draft))?;
    Ok(Named {
        names,
        channels,
        inputs,
    })
}
