//! What the channels have received: one look at a journal tells it of all of them.
ghost use Rattle.std.specs.Prelude.{◌≡◌, ◌++◌, ℕ, List, [], ◌∷◌, IfOk, OnOk, length, map};
ghost use Rattle.lio_values.specs.declared.entry.Entry.{Entry as Turn};
ghost use Rattle.lio_events.specs.ChannelBytes as spec;
ghost use Rattle.lio_front.specs.Sends.{bytes_of_lists, received};

use lio_clauses::NoMemory;
use lio_events::Journal;
use lio_values::{Act, Entry, Reply};
use std::alloc::Global;

/// The text of a send that was carried out.
#[inline(always)]
fn sent<'a>(act: &'a Act, reply: &Reply) -> &'a [u8]
    ensures { result.now ≡ spec.sent act.entry.now reply.now }
{
    match act {
        Act::Send(text) => match reply {
            Reply::Done => text.bytes(),
            Reply::Got(_) | Reply::Told(_) | Reply::Refused(_) => &[],
        },
        _ => &[],
    }
}

/// Appends what an entry sends to the bytes of its channel, if that is one of these.
#[inline(always)]
fn append_sent(lists: &mut Vec<Vec<u8>>, entry: &Entry) -> Result<(), NoMemory>
    ensures { OnOk result ((journal : List Turn) (count : ℕ)
        → bytes_of_lists lists.old.items ≡ received journal count
        → bytes_of_lists lists.new.items ≡ received (journal ++ entry.now ∷ []) count) }
{
    let Some(target) = entry.target else {
        return Ok(());
    };
    let text = sent(&entry.act, &entry.reply);
    if text.is_empty() {
        return Ok(());
    }
    let place = target as usize;
    if lists.len() <= place {
        return Ok(());
    }
    lists[place].extend_from_slice(text)?;
    Ok(())
}

/// No bytes for each of so many channels.
fn empty_lists(alloc: Global, count: usize) -> Result<Vec<Vec<u8>>, NoMemory>
    ensures { IfOk result (λ lists. bytes_of_lists lists.items ≡ received [] count) }
{
    let mut lists = Vec::new(alloc);
    for _number in 0..count {
        lists.push(Vec::new(alloc))?;
    }
    Ok(lists)
}

/// The bytes that each of so many channels has received, in the order of their numbers. Each entry
/// is looked at once.
pub(crate) fn channels_bytes(
    alloc: Global,
    journal: &Journal,
    count: usize,
) -> Result<Vec<Vec<u8>>, NoMemory>
    ensures { IfOk result (λ lists. bytes_of_lists lists.items ≡ received journal.now count) }
{
    if count == 0 {
        return Ok(Vec::new(alloc));
    }
    let mut lists = empty_lists(alloc, count)?;
    for entry in journal.entries() {
        append_sent(&mut lists, entry)?;
    }
    Ok(lists)
}

/// Counts what an entry sends for its channel, if that is one of these. More bytes than a number of
/// bytes can say have no room in memory.
#[inline(always)]
fn count_sent(lengths: &mut Vec<usize>, entry: &Entry) -> Result<(), NoMemory>
    ensures { OnOk result ((journal : List Turn) (count : ℕ)
        → lengths.old.items ≡ map length (received journal count)
        → lengths.new.items ≡ map length (received (journal ++ entry.now ∷ []) count)) }
{
    let Some(target) = entry.target else {
        return Ok(());
    };
    let place = target as usize;
    if lengths.len() <= place {
        return Ok(());
    }
    let more = sent(&entry.act, &entry.reply).len();
    let Some(length) = lengths[place].checked_add(more) else {
        return Err(NoMemory);
    };
    lengths[place] = length;
    Ok(())
}

/// How many bytes each of so many channels has received, in the order of their numbers. Each entry
/// is looked at once, and no bytes are copied.
pub(crate) fn channels_lengths(
    alloc: Global,
    journal: &Journal,
    count: usize,
) -> Result<Vec<usize>, NoMemory>
    ensures { IfOk result (λ lengths. lengths.items ≡ map length (received journal.now count)) }
{
    if count == 0 {
        return Ok(Vec::new(alloc));
    }
    let mut lengths = vec![in alloc; 0; count]?;
    for entry in journal.entries() {
        count_sent(&mut lengths, entry)?;
    }
    Ok(lengths)
}
