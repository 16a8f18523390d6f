//! Commands on entries and journals.
ghost use Rattle.lio_events.specs.Printable.{IsPrintable};

use crate::answers::{Answer, Answered, finished};
use crate::refusal::Refusal;
use lio_clauses::Names;
use lio_events::laws::erased_is_printable;
use lio_events::{channel_bytes, print_entry, print_journal};
use lio_labels::Label;
use lio_rows_fields::{Words, read_entry, read_journal, read_label};
use lio_values::Entry;
use std::alloc::Global;

/// What a command on entries answers, if the word is that of one.
pub fn answer(alloc: Global, names: &Names, word: &str, fields: &[Vec<u8>]) -> Answered {
    let mut words = Words::new(fields);
    match word {
        "entry" if fields.len() == 1 => Some(read(alloc, names, fields[0].as_slice())),
        "entry" => Some(finished(shown(&mut words, alloc, names), &words)),
        "erased" => Some(finished(erased(&mut words, alloc, names), &words)),
        "equal_entries" => Some(finished(equal(&mut words, alloc, names), &words)),
        "journal" => Some(finished(history(&mut words, alloc, names), &words)),
        "bytes" => Some(finished(bytes(&mut words, alloc, names), &words)),
        _ => None,
    }
}

/// `entry LINE`: the line of the entry that is read of a line, with its ticket.
fn read(alloc: Global, names: &Names, text: &[u8]) -> Result<Answer, Refusal> {
    let entry = lio_events_reading::read_entry(alloc, text, names)?;
    line(alloc, names, entry, true)
}

/// `entry ENTRY`: the line of a copy of the entry, with its ticket.
fn shown(words: &mut Words, alloc: Global, names: &Names) -> Result<Answer, Refusal> {
    let entry = read_entry(words, alloc, names)?;
    let answer = copied(alloc, names, &entry);
    drop(entry);
    answer
}

/// The line of a copy of an entry, with its ticket.
fn copied(alloc: Global, names: &Names, entry: &Entry) -> Result<Answer, Refusal>
    requires { IsPrintable names.now entry.now }
{
    let copy = entry.copy(alloc)?;
    line(alloc, names, copy, true)
}

/// The line of an entry, with its ticket or without.
fn line(alloc: Global, names: &Names, entry: Entry, ticket: bool) -> Result<Answer, Refusal>
    requires { IsPrintable names.now entry }
{
    let text = print_entry(alloc, &entry, ticket, names);
    drop(entry);
    Ok(Answer::Text(text?))
}

/// `erased L ENTRY`: the line of the entry as an observer at the label sees it, without its ticket.
fn erased(words: &mut Words, alloc: Global, names: &Names) -> Result<Answer, Refusal> {
    let observer = read_label(words, alloc, names)?;
    erased_next(words, alloc, names, &observer)
}

/// The line of the next entry as an observer sees it, without its ticket.
fn erased_next(
    words: &mut Words,
    alloc: Global,
    names: &Names,
    observer: &Label,
) -> Result<Answer, Refusal> {
    let entry = read_entry(words, alloc, names)?;
    let answer = seen(alloc, names, observer, &entry);
    drop(entry);
    answer
}

/// The line of an entry as an observer sees it, without its ticket.
fn seen(alloc: Global, names: &Names, observer: &Label, entry: &Entry) -> Result<Answer, Refusal>
    requires { IsPrintable names.now entry.now }
{
    erased_is_printable();
    let seen = entry.erase(alloc, observer)?;
    line(alloc, names, seen, false)
}

/// `equal_entries ENTRY ENTRY`: whether the two are equal.
fn equal(words: &mut Words, alloc: Global, names: &Names) -> Result<Answer, Refusal> {
    let one = read_entry(words, alloc, names)?;
    let answer = equal_to_next(words, alloc, names, &one);
    drop(one);
    answer
}

/// Whether the next entry is equal to this one.
fn equal_to_next(
    words: &mut Words,
    alloc: Global,
    names: &Names,
    one: &Entry,
) -> Result<Answer, Refusal> {
    let other = read_entry(words, alloc, names)?;
    let equal = *one == other;
    drop(other);
    Ok(Answer::Truth(equal))
}

/// `journal COUNT ENTRY..`: the lines of the journal, with their tickets.
fn history(words: &mut Words, alloc: Global, names: &Names) -> Result<Answer, Refusal> {
    let journal = read_journal(words, alloc, names)?;
    Ok(Answer::Text(print_journal(alloc, &journal, true, names)?))
}

/// `bytes NUMBER COUNT ENTRY..`: what the channel with this number has received, by the journal.
fn bytes(words: &mut Words, alloc: Global, names: &Names) -> Result<Answer, Refusal> {
    let channel = words.number()?;
    let journal = read_journal(words, alloc, names)?;
    Ok(Answer::Text(channel_bytes(alloc, &journal, channel)?))
}
