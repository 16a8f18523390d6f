//! Lines whole.
ghost use Rattle.std.specs.Prelude.{◌≡◌, ◌++◌, ℕ, List, true, false, Err, IfOk};
ghost use Rattle.lio_values.specs.declared.entry.Entry.{Entry};
ghost use Rattle.lio_events.specs.EntryText.{line_text};
ghost use Rattle.lio_events.specs.JournalText.{entry_text};
ghost use Rattle.lio_events.specs.Printable.{IsPrintable};
ghost use Rattle.lio_events_reading.specs.Over.{IsEntryOver};
ghost use Rattle.lio_events_reading.specs.Lines.{HasNone, HasNoneSeen, IsActorOf, IsOnly};
ghost use Rattle.lio_events_reading.specs.Lines.{IsOnlySeen, IsTurnOver, StandsInFront, turn_text};
ghost use Rattle.lio_events_reading.specs.Reading.{Finds};

use crate::acts::act;
use crate::cursor::Cursor;
use crate::fault::EntryFault;
use crate::labels::label;
use crate::numbers::{long, number, target};
use crate::replies::reply;
use lio_clauses::{Names, NoMemory, beside};
use lio_events::print_entry;
use lio_values::{Act, Entry, Reply};
use std::alloc::Global;

/// Takes an act, and the reply to it.
fn turn(text: &mut Cursor, alloc: Global, names: &Names) -> Result<(Act, Reply), NoMemory>
    ensures finds { IfOk result (λ found. Finds (turn_text names.now)
        (IsTurnOver names.now) text.old found text.new) }
    ensures over { IfOk result (IsTurnOver names.now) }
{
    let act = act(text, alloc, names)?;
    text.skip(3);
    beside(act, reply(text, alloc, names))
}

/// Takes a line behind its ticket.
fn line_behind(
    text: &mut Cursor,
    alloc: Global,
    names: &Names,
    ticket: u64,
) -> Result<Entry, NoMemory>
    ensures finds { IfOk result (λ found. (entry : Entry) (rest : List ℕ) → IsEntryOver names.now
        entry → entry.ticket ≡ ticket → text.old ≡ line_text names.now entry ++ rest
        → found ≡ entry) }
    ensures over { IfOk result (IsEntryOver names.now) }
    ensures ticket { IfOk result (λ found. found.ticket ≡ ticket) }
{
    let actor = number(text);
    text.skip(1);
    let target = target(text);
    text.skip(1);
    let at = label(text, alloc, names)?;
    text.skip(1);
    let (act, reply) = turn(text, alloc, names)?;
    Ok(Entry {
        ticket,
        actor,
        target,
        at,
        act,
        reply,
    })
}

/// The entry and the length of its text, if this stands at the front of bytes.
fn confirmed(
    alloc: Global,
    entry: Entry,
    bytes: &[u8],
    ticket: bool,
    names: &Names,
) -> Result<(Entry, usize), EntryFault>
    requires { IsPrintable names.now entry }
    ensures entry { IfOk result (λ found. found.0 ≡ entry) }
    ensures ok { IfOk result
        (λ found. StandsInFront (entry_text names.now ticket entry) bytes.now found.1) }
    ensures none { result ≡ Err EntryFault.NotAnEntry
        → (rest : List ℕ) → ¬ (bytes.now ≡ entry_text names.now ticket entry ++ rest) }
{
    let printed = print_entry(alloc, &entry, ticket, names);
    let (entry, printed) = beside(entry, printed)?;
    match bytes.strip_prefix(printed.as_slice()) {
        Some(_) => Ok((entry, printed.len())),
        None => {
            drop(entry);
            Err(EntryFault::NotAnEntry)
        }
    }
}

/// The entry over the names of principals whose text, with its ticket, is the line, with its line
/// end. No other spelling is read.
pub fn read_entry(alloc: Global, line: &[u8], names: &Names) -> Result<Entry, EntryFault>
    ensures over { IfOk result (IsEntryOver names.now) }
    ensures text { IfOk result (λ entry. entry_text names.now true entry ≡ line.now) }
    ensures only { IfOk result (IsOnly names.now line.now) }
    ensures none { result ≡ Err EntryFault.NotAnEntry → HasNone names.now line.now }
{
    let mut text = Cursor::new(line);
    let ticket = long(&mut text);
    text.skip(1);
    let entry = line_behind(&mut text, alloc, names, ticket)?;
    let (entry, len) = confirmed(alloc, entry, line, true, names)?;
    if len == line.len() {
        Ok(entry)
    } else {
        drop(entry);
        Err(EntryFault::NotAnEntry)
    }
}

/// The entry over the names of principals with this ticket whose text, without it, stands at the
/// front of bytes, with its line end, and the length of the text. No other spelling is read.
pub fn read_seen(
    alloc: Global,
    bytes: &[u8],
    names: &Names,
    ticket: u64,
) -> Result<(Entry, usize), EntryFault>
    ensures over { IfOk result (λ found. IsEntryOver names.now found.0) }
    ensures ticket { IfOk result (λ found. found.0.ticket ≡ ticket) }
    ensures text { IfOk result
        (λ found. StandsInFront (entry_text names.now false found.0) bytes.now found.1) }
    ensures only { IfOk result (λ found. IsOnlySeen names.now ticket bytes.now found.0) }
    ensures none { result ≡ Err EntryFault.NotAnEntry → HasNoneSeen names.now ticket bytes.now }
{
    let mut text = Cursor::new(bytes);
    let entry = line_behind(&mut text, alloc, names, ticket)?;
    confirmed(alloc, entry, bytes, false, names)
}

/// The number of the task whose turn the line shows that stands at the front of these bytes, with
/// its ticket; some number where no line stands there.
pub fn actor_of(bytes: &[u8]) -> u32
    ensures { IsActorOf bytes.now result }
{
    let mut text = Cursor::new(bytes);
    text.word();
    text.skip(1);
    number(&mut text)
}
