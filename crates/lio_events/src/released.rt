//! What journals release.
#![tactic(auto, unfolding(crate::specs::Views::released_to))]

ghost use Rattle.std.specs.Prelude.{◌≡◌, ◌++◌, ◌∷◌, [], not, ◌&&◌, IfOk, MatchOption, OnOk};
ghost use Rattle.lio_labels.specs.Flow.{flows};
ghost use Rattle.lio_events.specs.Views.{released_to};
ghost use Rattle.lio_events.specs.Views as spec;

use crate::Journal;
use crate::contents::Contents;
use lio_clauses::NoMemory;
use lio_labels::Label;
use lio_values::{Act, Content, Entry, Reply};
use std::alloc::Global;

/// Whether what is released or exposed from one label to another comes to an observer: from a label
/// that doesn't flow to the observer's to one that does.
fn comes_to(source: &Label, target: &Label, observer: &Label) -> bool
    ensures { result ≡ (not (flows source.now observer.now) && flows target.now observer.now) }
{
    !source.flows(observer) && target.flows(observer)
}

/// The content that a turn releases to an observer, if it does: that of a release or an exposure
/// that was carried out.
fn released_by<'a>(act: &'a Act, reply: &Reply, observer: &Label) -> Option<&'a Content>
    ensures { MatchOption result (released_to observer.now act.entry.now reply.now ≡ [])
        (λ content. released_to observer.now act.entry.now reply.now ≡ content.now ∷ []) }
{
    match act {
        Act::Release(source, target, _, content) | Act::Expose(source, target, _, content) =>
            match reply {
                Reply::Done if comes_to(source.get(), target.get(), observer) => Some(
                    content.get(),
                ),
                _ => None,
            },
        _ => None,
    }
}

/// Puts what an entry releases to an observer behind other contents.
fn append_released(
    alloc: Global,
    contents: &mut Contents,
    entry: &Entry,
    observer: &Label,
) -> Result<(), NoMemory>
    ensures { OnOk result (contents.new
        ≡ contents.old ++ released_to observer.now entry.now.act entry.now.reply) }
{
    if let Some(content) = released_by(&entry.act, &entry.reply, observer) {
        contents.push(content.copy(alloc)?)?;
    }
    Ok(())
}

/// The contents that a journal releases to an observer, in their order.
pub fn releases(alloc: Global, journal: &Journal, observer: &Label) -> Result<Contents, NoMemory>
    ensures { IfOk result (λ contents. contents ≡ spec.releases observer.now journal.now) }
{
    let mut contents = Contents::new(alloc);
    for entry in journal.entries() {
        append_released(alloc, &mut contents, entry, observer)?;
    }
    Ok(contents)
}
