//! What is made of a journal, repeated: its text, what an observer sees of it, and what is released
//! to the observer.
ghost use Rattle.std.specs.Prelude.{◌≡◌, All, IfOk, true, length, []};
ghost use Rattle.lio_events.specs.JournalText.{journal_text};
ghost use Rattle.lio_events.specs.Printable.{ActKeepsPure, IsActNamed, IsPrintable, IsRaiseOf};

use lio_clauses::{Formula, Names, NoMemory};
use lio_events::{Journal, print_journal, releases, view};
use lio_labels::{Label, Priv};
use lio_values::{Act, Content, Entry, Held, Plain, Reply, Text};
use std::alloc::Global;

/// What each turn sends or releases.
const TEXT: &[u8] = b"abcdefghijklmnopqrst";

/// A release of a text from the greatest label to the public one.
fn release(alloc: Global) -> Result<Act, NoMemory>
    ensures named { IfOk result (IsActNamed []) }
    ensures raise { IfOk result IsRaiseOf }
    ensures pure { IfOk result ActKeepsPure }
{
    let content = Content::Kept(Plain::Bytes(Text::of(alloc, TEXT)?));
    let content = Held::new(alloc, content)?;
    let source = Held::new(alloc, Label::greatest(alloc)?)?;
    let target = Held::new(alloc, Label::public(alloc)?)?;
    let power = Priv {
        power: Formula::falsity(alloc)?,
    };
    Ok(Act::Release(source, target, power, content))
}

/// What a turn does: it sends a text where its ticket is even, and else releases it.
fn act_of(alloc: Global, ticket: u32) -> Result<Act, NoMemory>
    ensures named { IfOk result (IsActNamed []) }
    ensures raise { IfOk result IsRaiseOf }
    ensures pure { IfOk result ActKeepsPure }
{
    if ticket % 2 == 0 {
        Ok(Act::Send(Text::of(alloc, TEXT)?))
    } else {
        release(alloc)
    }
}

/// A public turn.
fn entry_of(alloc: Global, ticket: u32) -> Result<Entry, NoMemory>
    ensures ticket { IfOk result (λ entry. entry.ticket ≡ ticket) }
    ensures printable { IfOk result (λ entry. IsPrintable [] entry) }
{
    let at = Label::public(alloc)?;
    let act = act_of(alloc, ticket)?;
    Ok(Entry {
        ticket: ticket as u64,
        actor: 1,
        target: None,
        at,
        act,
        reply: Reply::Done,
    })
}

/// A journal of so many turns that send and release.
fn journal_of(alloc: Global, entries: u32) -> Result<Journal, NoMemory>
    ensures count { IfOk result (λ journal. length journal ≡ entries) }
    ensures printable { IfOk result (λ journal. All (IsPrintable []) journal) }
{
    let mut journal = Journal::new(alloc);
    for ticket in 0..entries {
        journal.push(entry_of(alloc, ticket)?)?;
    }
    Ok(journal)
}

/// The text of a journal with its tickets.
fn text_of(alloc: Global, journal: &Journal) -> Result<Vec<u8>, NoMemory>
    requires { All (IsPrintable []) journal.now }
    ensures { IfOk result (λ text. text.items ≡ journal_text [] true journal.now) }
{
    print_journal(alloc, journal, true, &Names::new(alloc)?)
}

/// Makes a journal, and prints it so many times.
pub fn print_times(alloc: Global, entries: u32, times: u32) -> Result<(), NoMemory> {
    let journal = journal_of(alloc, entries)?;
    for _ in 0..times {
        let _text = text_of(alloc, &journal)?;
    }
    Ok(())
}

/// Takes what an observer sees of a journal, and what is released to it.
fn look(alloc: Global, journal: &Journal, observer: &Label) -> Result<(), NoMemory> {
    let _seen = view(alloc, journal, observer)?;
    let _released = releases(alloc, journal, observer)?;
    Ok(())
}

/// Takes so many times what everyone sees of a journal, and what is released to everyone.
fn look_at(alloc: Global, journal: &Journal, times: u32) -> Result<(), NoMemory> {
    let observer = Label::public(alloc)?;
    for _ in 0..times {
        look(alloc, journal, &observer)?;
    }
    Ok(())
}

/// Makes a journal, and takes so many times what everyone sees of it, and what is released to
/// everyone.
pub fn look_times(alloc: Global, entries: u32, times: u32) -> Result<(), NoMemory> {
    let journal = journal_of(alloc, entries)?;
    look_at(alloc, &journal, times)
}
