//! Views of journals.
ghost use Rattle.std.specs.Prelude.{◌≡◌, ◌++◌, ◌∷◌, [], length, IfOk, OnOk};
ghost use Rattle.lio_values.specs.Erasure.{erase_entry};
ghost use Rattle.lio_events.specs.Views as spec;
ghost use Rattle.lio_events.specs.Tickets.{AreBelow};

use crate::Journal;
use lio_clauses::NoMemory;
use lio_labels::Label;
use lio_values::Entry;
use std::alloc::Global;

/// An entry as an observer sees it, with another ticket.
fn seen(alloc: Global, entry: &Entry, observer: &Label, ticket: u64) -> Result<Entry, NoMemory>
    ensures { IfOk result
        (λ seen. seen ≡ erase_entry observer.now (record entry.now { ticket = ticket })) }
{
    let mut seen = entry.erase(alloc, observer)?;
    seen.ticket = ticket;
    Ok(seen)
}

/// Puts an entry behind the view so far, if the observer sees it.
fn append_seen(
    alloc: Global,
    view: &mut Journal,
    entry: &Entry,
    observer: &Label,
) -> Result<(), NoMemory>
    requires { AreBelow (length view.old) view.old }
    ensures view { OnOk result
        (view.new ≡ view.old ++ spec.view observer.now (length view.old) (entry.now ∷ [])) }
    ensures below { OnOk result (AreBelow (length view.new) view.new) }
{
    if entry.at.flows(observer) {
        let ticket = view.entries().len() as u64;
        view.push(seen(alloc, entry, observer, ticket)?)?;
    }
    Ok(())
}

/// The view of an observer: the entries of the turns that tasks took at labels that flow to the
/// observer's, each erased, with tickets from 0. Source: the erasure of the concurrent calculus of
/// LIO, ICFP 2012.
pub fn view(alloc: Global, journal: &Journal, observer: &Label) -> Result<Journal, NoMemory>
    ensures { IfOk result (λ seen. seen ≡ spec.view observer.now 0 journal.now) }
{
    let mut view = Journal::new(alloc);
    for entry in journal.entries() {
        append_seen(alloc, &mut view, entry, observer)?;
    }
    Ok(view)
}
