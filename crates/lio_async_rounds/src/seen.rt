//! What an observer sees of the entries of a journal.
ghost use Rattle.std.specs.Prelude.{◌≡◌, ◌∷◌, ◌≤◌, ℕ, true, List, drop, length, IfOk};
ghost use Rattle.lio_events.specs.Views.{is_visible, view};
ghost use Rattle.lio_values.specs.declared.entry.Entry.{Entry as SomeEntry};
ghost use Rattle.lio_values.specs.Erasure.{erase_entry};

use lio_clauses::NoMemory;
use lio_labels::Label;
use lio_values::Entry;
use std::alloc::Global;

/// The place of the first entry from this one on that an observer sees, or the number of entries
/// where it sees none of them.
pub(crate) fn first_seen(entries: &[Entry], from: usize, observer: &Label) -> usize
    requires { from ≤ length entries.now }
    ensures from { from ≤ result }
    ensures most { result ≤ length entries.now }
    ensures same { (ticket : ℕ) → view observer.now ticket (drop result entries.now)
        ≡ view observer.now ticket (drop from entries.now) }
    ensures seen { (entry : SomeEntry) (rest : List SomeEntry) → drop result entries.now ≡ entry ∷ rest
        → is_visible observer.now entry ≡ true }
{
    let mut place = from;
    while let Some(entry) = entries.get(place) {
        if entry.at.flows(observer) {
            return place;
        }
        place += 1;
    }
    place
}

/// An entry as an observer sees it, with another ticket.
pub(crate) fn seen_entry(
    alloc: Global,
    entry: &Entry,
    observer: &Label,
    ticket: u64,
) -> Result<Entry, NoMemory>
    ensures { IfOk result
        (λ seen. seen ≡ erase_entry observer.now (record entry.now { ticket = ticket })) }
{
    let mut seen = entry.erase(alloc, observer)?;
    seen.ticket = ticket;
    Ok(seen)
}
