//! The line with which a view that stops could go on, for messages.

ghost use Rattle.std.specs.Prelude.{◌≡◌, ◌-◌, All, IfOk, IfSome, List, ℕ};
ghost use Rattle.lio_calculus.specs.Step.{Configuration};
ghost use Rattle.lio_calculus_runs.specs.NameLaws.{IsContentPrintable};
ghost use Rattle.lio_events.specs.Printable.{IsPrintable};
ghost use Rattle.lio_calculus_runs.specs.Configuration.{NamesOnly};
ghost use Rattle.lio_erasure.specs.LowParts.{low_of};
ghost use Rattle.lio_observe_main.specs.Claim.{Agrees, claim_of, seen_first};
ghost use Rattle.lio_observe_main.specs.Expected.{CouldFollow, CouldStand, IsLine, IsTurn, MovesOn};

use crate::claim::Claim;
use lio_audit::low_start_of;
use lio_clauses::{Names, NoMemory};
use lio_erasure::{Low, LowFault};
use lio_events::{Contents, Journal, print_entry, releases};
use lio_events_reading::{EntryFault, read_seen};
use lio_labels::Label;
use lio_values::Entry;
use std::alloc::Global;

/// A line of a view: its task, what it releases to the observer, and how long it is.
#[derive(Drop)]
struct Line {
    actor: u32,
    released: Contents,
    len: usize,
}

/// What an observer sees of the first configuration of a claim.
fn first_of(alloc: Global, claim: &Claim) -> Result<Low, NoMemory>
    ensures named { IfOk result (λ low.
        NamesOnly claim.now.job.policy.names (low_of low).configuration) }
    ensures observer { IfOk result (λ low. (low_of low).observer ≡ claim.now.observer) }
    ensures first { IfOk result (λ low. (texts : List (List ℕ)) → Agrees (claim_of claim.now) texts
        → (low_of low).configuration ≡ seen_first (claim_of claim.now) texts) }
{
    let policy = claim.job.policy();
    let script = claim.job.script().copy(alloc)?;
    let observer = claim.observer.copy(alloc)?;
    let start = low_start_of(alloc, &claim.job, &claim.observer)?;
    Ok(Low::new(start, observer, script, policy.longest))
}

/// The contents that an entry releases to the observer.
fn released_by(
    alloc: Global,
    entry: Entry,
    observer: &Label,
    names: &Names,
) -> Result<Contents, NoMemory>
    requires { IsPrintable names.now entry }
    ensures { IfOk result (All (IsContentPrintable names.now)) }
{
    let mut line = Journal::new(alloc);
    line.push(entry)?;
    let contents = releases(alloc, &line, observer);
    drop(line);
    contents
}

/// The line at the front of bytes, if one stands there.
fn read_line(
    alloc: Global,
    bytes: &[u8],
    observer: &Label,
    names: &Names,
) -> Result<Option<Line>, NoMemory>
    ensures { IfOk result (λ line. IfSome line
        (λ l. All (IsContentPrintable names.now) l.released)) }
{
    match read_seen(alloc, bytes, names, 0) {
        Ok((entry, len)) => {
            let actor = entry.actor;
            let released = released_by(alloc, entry, observer, names)?;
            Ok(Some(Line {
                actor,
                released,
                len,
            }))
        }
        Err(EntryFault::NotAnEntry) => Ok(None),
        Err(EntryFault::NoMemory) => Err(NoMemory),
    }
}

/// The turn of a task. It names only principals that have names.
#[tactic(none)]
fn turn(
    alloc: Global,
    low: &mut Low,
    released: &mut Contents,
    names: &Names,
    k: u32,
) -> Result<Entry, LowFault>
    requires named { NamesOnly names.now (low_of low.old).configuration }
    requires contents { All (IsContentPrintable names.now) released.old }
    ensures entry { IfOk result (IsPrintable names.now) }
    ensures named { NamesOnly names.now (low_of low.new).configuration }
    ensures takes { IfOk result (IsTurn (low_of low.old).observer (low_of low.old).configuration
        (low_of low.new).configuration) }
    ensures observer { (low_of low.new).observer ≡ (low_of low.old).observer }
{
    let _ = names;
    low.turn(alloc, k, released)
}

/// Takes the turn of a task with these contents, if it can take one.
fn take_turn(
    alloc: Global,
    low: &mut Low,
    mut released: Contents,
    names: &Names,
    k: u32,
) -> Result<Option<Entry>, NoMemory>
    requires named { NamesOnly names.now (low_of low.old).configuration }
    requires contents { All (IsContentPrintable names.now) released }
    ensures entry { IfOk result (λ entry. IfSome entry (IsPrintable names.now)) }
    ensures named { NamesOnly names.now (low_of low.new).configuration }
    ensures takes { IfOk result (λ entry. IfSome entry (IsTurn (low_of low.old).observer
        (low_of low.old).configuration (low_of low.new).configuration)) }
    ensures observer { (low_of low.new).observer ≡ (low_of low.old).observer }
{
    let taken = turn(alloc, low, &mut released, names, k);
    drop(released);
    match taken {
        Ok(entry) => Ok(Some(entry)),
        Err(LowFault::NoMemory) => Err(NoMemory),
        Err(LowFault::Still(_) | LowFault::NoRelease(_)) => Ok(None),
    }
}

/// The number at the front of bytes.
fn number_at_front(bytes: &[u8]) -> u32 {
    let mut number = 0u32;
    for byte in bytes {
        if !byte.is_ascii_digit() {
            break;
        }
        let digit = byte.saturating_sub(b'0');
        number = number.saturating_mul(10).saturating_add(u32::from(digit));
    }
    number
}

/// The first task that can take a turn.
fn first_to_move(low: &Low) -> Option<u32> {
    for place in 0..low.config().as_slice().len() {
        if let Ok(k) = u32::try_from(place)
            && low.can_move(k)
        {
            return Some(k);
        }
    }
    None
}

/// The line of a task's turn with these contents, if it can take one.
fn line_of(
    alloc: Global,
    low: &mut Low,
    released: Contents,
    names: &Names,
    k: u32,
) -> Result<Option<Vec<u8>>, NoMemory>
    requires named { NamesOnly names.now (low_of low.old).configuration }
    requires contents { All (IsContentPrintable names.now) released }
    ensures { IfOk result (λ text. IfSome text (λ t. IsLine names.now (low_of low.old).observer
        (low_of low.old).configuration t.items)) }
{
    match take_turn(alloc, low, released, names, k)? {
        Some(entry) => {
            let text = print_entry(alloc, &entry, false, names);
            drop(entry);
            Ok(Some(text?))
        }
        None => Ok(None),
    }
}

/// The line of the turn that comes next: of the task that stands at the front of bytes, or where
/// nothing does, of the first that can take one.
fn next_line(
    alloc: Global,
    low: &mut Low,
    bytes: &[u8],
    observer: &Label,
    names: &Names,
) -> Result<Option<Vec<u8>>, NoMemory>
    requires { NamesOnly names.now (low_of low.old).configuration }
    ensures { IfOk result (λ text. IfSome text (λ t. IsLine names.now (low_of low.old).observer
        (low_of low.old).configuration t.items)) }
{
    if let Some(line) = read_line(alloc, bytes, observer, names)? {
        return line_of(alloc, low, line.released, names, line.actor);
    }
    let nothing = Contents::new(alloc);
    if !bytes.is_empty() {
        return line_of(alloc, low, nothing, names, number_at_front(bytes));
    }
    match first_to_move(low) {
        Some(k) => line_of(alloc, low, nothing, names, k),
        None => {
            drop(nothing);
            Ok(None)
        }
    }
}

/// Takes the turn of a line, if it can be taken, and gives the length of the line.
fn take_line(
    alloc: Global,
    low: &mut Low,
    line: Line,
    names: &Names,
) -> Result<Option<usize>, NoMemory>
    requires named { NamesOnly names.now (low_of low.old).configuration }
    requires contents { All (IsContentPrintable names.now) line.released }
    ensures named { NamesOnly names.now (low_of low.new).configuration }
    ensures moves { IfOk result (λ len. IfSome len (λ _. MovesOn (low_of low.old).observer
        (low_of low.old).configuration (low_of low.new).configuration)) }
    ensures observer { (low_of low.new).observer ≡ (low_of low.old).observer }
{
    let Line {
        actor,
        released,
        len,
    } = line;
    match take_turn(alloc, low, released, names, actor)? {
        Some(entry) => {
            drop(entry);
            Ok(Some(len))
        }
        None => Ok(None),
    }
}

/// Takes the turns of the lines before one, and gives the line of the turn behind them.
fn line_behind(
    alloc: Global,
    low: &mut Low,
    bytes: &[u8],
    line: u32,
    observer: &Label,
    names: &Names,
) -> Result<Option<Vec<u8>>, NoMemory>
    requires { NamesOnly names.now (low_of low.old).configuration }
    ensures { IfOk result (λ text. IfSome text (λ t. CouldFollow names.now (low_of low.old).observer
        (low_of low.old).configuration line t.items)) }
{
    let mut rest = bytes;
    for _before in 1..line {
        let Some(shown) = read_line(alloc, rest, observer, names)? else {
            return Ok(None);
        };
        let Some(len) = take_line(alloc, low, shown, names)? else {
            return Ok(None);
        };
        rest = rest.get(len..).unwrap_or(b"");
    }
    next_line(alloc, low, rest, observer, names)
}

/// The line with which a view that stops at a line, from 1, could go on there: that of the turn of
/// the task that the line shows, or where the line is missing, of the first task that can take one.
/// Nothing where that task can't, or the view stops before. The contract says only that it is the
/// line of some turn behind as many others.
pub fn expected_line(alloc: Global, claim: &Claim, line: u32) -> Result<Option<Vec<u8>>, NoMemory>
    ensures { IfOk result (λ text. IfSome text (λ t. (texts : List (List ℕ))
        → Agrees (claim_of claim.now) texts
        → CouldStand (claim_of claim.now) texts line t.items)) }
{
    let mut low = first_of(alloc, claim)?;
    let policy = claim.job.policy();
    let view = claim.view.as_slice();
    let names = &policy.names;
    let text = line_behind(alloc, &mut low, view, line, &claim.observer, names);
    drop(low);
    text
}
