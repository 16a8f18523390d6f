//! A view that is checked, line by line, by the erased calculus.
ghost use Rattle.std.specs.Prelude.{◌≡◌, ◌+◌, ◌<◌, ◌≤◌, ◌^◌, ◌∷◌, All, IfErr, IfOk, List as list};
ghost use Rattle.std.specs.Prelude.{MatchOption, [], false, length, slice_get, true};
ghost use Rattle.lio_events.specs.Views.{released_to};
ghost use Rattle.lio_calculus.specs.Laws.{IsShownContent};
ghost use Rattle.lio_calculus_runs.specs.Rounds.{IsComplete};
ghost use Rattle.lio_erasure.specs.Low.{IsSeenOfSound, LeavesOutBlanks, low_configuration_of};
ghost use Rattle.lio_erasure.specs.LowParts.{low_of};
ghost use Rattle.lio_audit.specs.History.{CanGoOn, most_history_bytes};
ghost use Rattle.lio_audit.specs.Seen.{Follows, TakesSeenLine};
ghost use Rattle.lio_audit.specs.View.{BeginsSeenTurn, IsOneViewOfTurns, SeenSays};

use crate::observer::low_from;
use crate::replay::MOST_HISTORY_BYTES;
use crate::view_fault::ViewFault;
use lio_clauses::{Names, NoMemory};
use lio_erasure::{Low, LowConfig, LowFault};
use lio_events::{Contents, Journal, releases};
use lio_events_reading::{EntryFault, read_seen};
use lio_labels::Label;
use lio_syntax::Script;
use lio_values::{Content, Entry, FaultKind};
use std::alloc::Global;

/// Whether no task can take a turn of the erased calculus.
fn is_complete(low: &Low) -> bool
    requires { length (low_of low.now).configuration.cells < 2 ^ 31 }
    ensures yes { result ≡ true → IsComplete (low_of low.now).configuration }
    ensures no { result ≡ false → CanGoOn (low_of low.now).configuration }
{
    for k in 0..low.config().as_slice().len() {
        if low.can_move(k as u32) {
            return false;
        }
    }
    true
}

/// Whether a content isn't hidden, and what it keeps is pure.
fn is_shown(content: &Content) -> bool
    ensures yes { result ≡ true → IsShownContent content.now }
    ensures no { result ≡ false → IsShownContent content.now → ⊥ }
{
    match content {
        Content::Kept(plain) => plain.is_pure(),
        Content::Faulted(fault) => match &fault.get().kind {
            FaultKind::User(plain) => plain.is_pure(),
            _ => true,
        },
        Content::Hidden => false,
    }
}

/// Whether none of the contents is hidden, and what they keep is pure.
fn are_shown(contents: &[Content]) -> bool
    ensures yes { result ≡ true → All IsShownContent contents.now }
    ensures no { result ≡ false → All IsShownContent contents.now → ⊥ }
{
    for content in contents {
        if !is_shown(content) {
            return false;
        }
    }
    true
}

/// Whether the entry of a turn that was taken is this one, and no content is left.
fn is_shown_by(entry: &Entry, taken: &Entry, left: &[Content]) -> bool
    ensures yes { result ≡ true → (taken.now ≡ entry.now) × (left.now ≡ []) }
    ensures no { result ≡ false → taken.now ≡ entry.now → left.now ≡ [] → ⊥ }
{
    taken == entry && left.is_empty()
}

/// Takes the erased turn of an entry's actor, with the contents that the entry releases, and tells
/// whether it is the entry's: it shows the entry, none of the contents is hidden, and none is left.
fn follow(
    alloc: Global,
    low: &mut Low,
    entry: &Entry,
    released: &mut Contents,
) -> Result<bool, NoMemory>
    requires ticket { entry.now.ticket ≡ 0 }
    requires released { released.old
        ≡ released_to (low_of low.old).observer entry.now.act entry.now.reply }
    ensures { IfOk result (Follows (low_of low.old) (low_of low.new) entry.now) }
{
    if !are_shown(released.as_slice()) {
        return Ok(false);
    }
    match low.turn(alloc, entry.actor, released) {
        Ok(taken) => {
            let left = released.as_slice();
            let same = is_shown_by(entry, &taken, left);
            drop(taken);
            Ok(same)
        }
        Err(LowFault::Still(_)) => Ok(false),
        Err(LowFault::NoRelease(_)) => Ok(false),
        Err(LowFault::NoMemory) => Err(NoMemory),
    }
}

/// Takes the erased turn whose line stands at the front of bytes, and gives the length of the line.
fn take_line(
    alloc: Global,
    low: &mut Low,
    observer: &Label,
    bytes: &[u8],
    names: &Names,
) -> Result<Option<usize>, NoMemory>
    requires { (low_of low.old).observer ≡ observer.now }
    ensures { IfOk result (λ len. MatchOption len
        (BeginsSeenTurn names.now observer.now (low_of low.old).configuration bytes.now → ⊥)
        (TakesSeenLine names.now (low_of low.old) (low_of low.new) bytes.now)) }
{
    let (entry, len) = match read_seen(alloc, bytes, names, 0) {
        Ok(found) => found,
        Err(EntryFault::NotAnEntry) => return Ok(None),
        Err(EntryFault::NoMemory) => return Err(NoMemory),
    };
    let mut line = Journal::new(alloc);
    line.push(entry)?;
    let mut released = releases(alloc, &line, observer)?;
    if follow(alloc, low, &line.entries()[0], &mut released)? {
        Ok(Some(len))
    } else {
        Ok(None)
    }
}

/// Takes the turns of a view one after another, until nothing is left of it. Then no task may be
/// left that can take a turn. It gives the number of turns.
fn follow_lines(
    alloc: Global,
    low: &mut Low,
    observer: &Label,
    bytes: &[u8],
    names: &Names,
) -> Result<u32, ViewFault>
    requires observer { (low_of low.old).observer ≡ observer.now }
    requires seen { IsSeenOfSound observer.now (low_of low.old).configuration }
    requires cells { length (low_of low.old).configuration.cells < 2 ^ 31 }
    requires few { length bytes.now ≤ most_history_bytes }
    ensures ok { IfOk result (IsOneViewOfTurns names.now observer.now (low_of low.old).configuration
        bytes.now) }
    ensures err { IfErr result (SeenSays names.now observer.now (low_of low.old).configuration
        bytes.now) }
{
    let _ = names.len();
    let mut at = 0;
    let mut lines = 0;
    while at < bytes.len() {
        let Some(len) = take_line(alloc, low, observer, &bytes[at..], names)? else {
            return Err(ViewFault::NotAView(lines + 1));
        };
        at += len;
        lines += 1;
    }
    if is_complete(low) {
        Ok(lines)
    } else {
        Err(ViewFault::NotAView(lines + 1))
    }
}

/// Checks that bytes are the view of a complete run, from what an observer sees of the sound
/// configuration where the run began: the observer takes the turns that it sees in the erased
/// calculus, with the contents that the view tells, and gives their number. Each line has to be
/// that of such a turn.
pub fn check_view(
    alloc: Global,
    start: LowConfig,
    observer: &Label,
    script: &Script,
    longest: u32,
    bytes: &[u8],
    names: &Names,
) -> Result<u32, ViewFault>
    requires seen { IsSeenOfSound observer.now (low_configuration_of script.now longest start) }
    requires kept { LeavesOutBlanks start }
    ensures ok { IfOk result (IsOneViewOfTurns names.now observer.now
        (low_configuration_of script.now longest start) bytes.now) }
    ensures err { IfErr result (SeenSays names.now observer.now
        (low_configuration_of script.now longest start) bytes.now) }
{
    if bytes.len() > MOST_HISTORY_BYTES {
        return Err(ViewFault::NotAView(0));
    }
    let mut low = low_from(alloc, start, observer, script, longest)?;
    follow_lines(alloc, &mut low, observer, bytes, names)
}
