//! Rule 9: names of files.
ghost use Rattle.std.specs.Prelude.{◌≡◌, ◌==◌, []};
ghost use Rattle.std.specs.List.{list_any};
ghost use Rattle.lio_policy_draft.specs.Failing.{entries, Passes};
ghost use Rattle.lio_policy.specs.Rules.{begins_with_dash, files_fail, no_file};

use crate::keys::{Key, add_keys};
use crate::table::Table;
use lio_policy_draft::{Draft, FileDraft, PolicyFault, first_channel, first_input};
use std::alloc::Global;

/// The rule's number.
const RULE: u32 = 9;

/// How many bytes a file's name has at most.
const LONGEST: usize = 255;

/// Whether a name begins with `-`.
fn begins_with_dash(name: &[u8]) -> bool
    ensures { result ≡ begins_with_dash name.now }
{
    match name {
        [first, ..] => *first == b'-',
        [] => false,
    }
}

/// Whether a name has a zero byte.
fn has_zero(name: &[u8]) -> bool
    ensures { result ≡ list_any (λ b. b == 0) name.now }
{
    name.iter().any(|byte| *byte == 0)
}

/// Whether these bytes may be no file's name.
fn is_no_file(name: &[u8]) -> bool
    ensures { result ≡ no_file name.now }
{
    name.is_empty() || name.len() > LONGEST || begins_with_dash(name) || has_zero(name)
}

/// The files of channels and inputs.
struct ByFile;

impl Key<FileDraft> for ByFile {
    ghost key_of = { λ _ file. file.file };

    ghost is_wrong = { λ _. no_file };

    fn key<'t>(&self, item: &'t FileDraft) -> &'t [u8] {
        item.file.bytes()
    }

    fn is_bad(&self, key: &[u8]) -> bool {
        is_no_file(key)
    }
}

/// Puts the files of a draft's channels and inputs into a table that has none, up to the first that
/// fails.
fn add_files(alloc: Global, draft: &Draft, files: &mut Table) -> Result<(), PolicyFault>
    requires { files.old ≡ [] }
    ensures { Passes RULE 0 (entries (files_fail draft.now)) result (λ _. Unit {0}) }
{
    let channels = draft.channels.as_slice();
    add_keys(alloc, &ByFile, files, channels, RULE, first_channel(draft))?;
    let inputs = draft.inputs.as_slice();
    add_keys(alloc, &ByFile, files, inputs, RULE, first_input(draft))?;
    Ok(())
}

/// Tests that the files of a draft's channels and inputs may be so, and differ.
pub(crate) fn check_files(alloc: Global, draft: &Draft) -> Result<(), PolicyFault>
    ensures { Passes RULE 0 (entries (files_fail draft.now)) result (λ _. Unit {0}) }
{
    let mut files = Table::new(alloc);
    add_files(alloc, draft, &mut files)
}
