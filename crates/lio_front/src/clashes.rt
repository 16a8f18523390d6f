//! The files that are written, and the first whose name is taken.

ghost use Rattle.std.specs.Prelude.{◌≡◌, ◌||◌, [], IfOk};
ghost use Rattle.lio_outside.specs.Taken as taken;
ghost use Rattle.lio_front.specs.Clash as spec;

use lio_clauses::NoMemory;
use lio_policy::{FileEntry, Policy};
use lio_values::{List, Text};
use std::alloc::Global;

/// Whether a name is one of these.
fn is_among(names: &[Text], name: &[u8]) -> bool
    ensures { result ≡ taken.is_among names.now name.now }
{
    names.iter().any(|other| name == other.bytes())
}

/// Whether one of these has this file.
fn has_file(entries: &[FileEntry], name: &[u8]) -> bool
    ensures { result ≡ spec.has_file entries.now name.now }
{
    entries.iter().any(|entry| name == entry.file.bytes())
}

/// Whether a run reads the file with this name, one of these or an input, or has written it before.
fn is_taken(read: &[Text], policy: &Policy, before: &[Text], name: &[u8]) -> bool
    ensures { result ≡ (spec.is_read read.now policy.now name.now
        || taken.is_among before.now name.now) }
{
    is_among(read, name) || has_file(policy.inputs.as_slice(), name) || is_among(before, name)
}

/// The names of the files that are written, in their order: the channels' files, and then these.
fn names_written(alloc: Global, policy: &Policy, written: &[Text]) -> Result<List<Text>, NoMemory>
    ensures { IfOk result (λ names. names ≡ spec.names_written policy.now written.now) }
{
    let mut names = List::new(alloc);
    for channel in policy.channels.as_slice() {
        names.push(channel.file.copy(alloc)?)?;
    }
    for name in written {
        names.push(name.copy(alloc)?)?;
    }
    Ok(names)
}

/// The first of these names that is taken: that of a file that is read, or one that stands before
/// it.
fn first_taken(
    alloc: Global,
    policy: &Policy,
    names: &[Text],
    read: &[Text],
) -> Result<Option<Text>, NoMemory>
    ensures { IfOk result (λ name. name
        ≡ taken.first_taken (spec.is_read read.now policy.now) [] names.now) }
{
    for (place, name) in names.iter().enumerate() {
        if is_taken(read, policy, &names[..place], name.bytes()) {
            return Ok(Some(name.copy(alloc)?));
        }
    }
    Ok(None)
}

/// The first file that is written, of the channels in their order and then of `written`, whose name
/// is that of a file that is read, one of `read` or an input, or of one that is written before.
pub fn clash(
    alloc: Global,
    policy: &Policy,
    written: &List<Text>,
    read: &List<Text>,
) -> Result<Option<Text>, NoMemory>
    ensures { IfOk result (λ name. name ≡ spec.clash policy.now written.now read.now) }
{
    let names = names_written(alloc, policy, written.as_slice())?;
    first_taken(alloc, policy, names.as_slice(), read.as_slice())
}
