//! What acts ask.
ghost use Rattle.std.specs.Prelude.{◌≡◌, IfOk};
ghost use Rattle.lio_cells.specs.State.{is_absent, is_reference};
ghost use Rattle.lio_calculus.specs.Step.{has_label, waits};
ghost use Rattle.lio_erasure.specs.Acts.{hides, is_hidden, lacks_content, releases_above};
ghost use Rattle.lio_erasure.specs.Acts.{shown_act, with_content};

use lio_cells::State;
use lio_clauses::{NoMemory, beside};
use lio_labels::Label;
use lio_values::{Act, Content, Held, Reply};
use std::alloc::Global;

/// Whether nothing is there.
pub(crate) fn is_absent(state: &State) -> bool
    ensures { result ≡ is_absent state.now }
{
    matches!(state, State::Absent)
}

/// Whether a node is a reference.
pub(crate) fn is_reference(state: &State) -> bool
    ensures { result ≡ is_reference state.now }
{
    matches!(state, State::Ref(_, _))
}

/// Whether a node has a label.
pub(crate) fn has_label(state: &State, label: &Label) -> bool
    ensures { result ≡ has_label state.now label.now }
{
    match state {
        State::Absent => false,
        State::Ref(own, _) => own == label,
        State::Var(own, _) => own == label,
        State::Chan(own, _) => own == label,
        State::Job(own, _) => own == label,
    }
}

/// Whether an act waits until its node is ready.
pub(crate) fn waits(act: &Act) -> bool
    ensures { result ≡ waits act.now }
{
    matches!(act, Act::Read | Act::Take | Act::Put(_) | Act::Wait)
}

/// Whether a release or an exposure that is carried out brings a hidden content to a label below
/// the observer's, so that the content has to be told.
pub(crate) fn lacks_content(act: &Act, reply: &Reply, observer: &Label) -> bool
    ensures { result ≡ lacks_content observer.now act.now reply.now }
{
    match (act, reply) {
        (Act::Release(_, target, _, content) | Act::Expose(_, target, _, content), Reply::Done) =>
            is_hidden(content.get()) && target.get().flows(observer),
        _ => false,
    }
}

/// Whether a content is hidden.
fn is_hidden(content: &Content) -> bool
    ensures { result ≡ is_hidden content.now }
{
    matches!(content, Content::Hidden)
}

/// A release or an exposure with another content; another act stays as it is.
pub(crate) fn with_content(act: Act, content: Held<Content>) -> Act
    ensures { result ≡ with_content act content }
{
    match act {
        Act::Release(source, target, power, hidden) => {
            drop(hidden);
            Act::Release(source, target, power, content)
        }
        Act::Expose(source, target, power, hidden) => {
            drop(hidden);
            Act::Expose(source, target, power, content)
        }
        other => {
            drop(content);
            other
        }
    }
}

/// Whether an act releases or exposes a content to a label that doesn't flow to the observer's.
fn releases_above(act: &Act, observer: &Label) -> bool
    ensures { result ≡ releases_above observer.now act.now }
{
    match act {
        Act::Release(_, target, _, _) => !target.get().flows(observer),
        Act::Expose(_, target, _, _) => !target.get().flows(observer),
        _ => false,
    }
}

/// An act as an observer sees it who sees its values already: a content that is released or exposed
/// to a label that doesn't flow to the observer's is hidden.
pub(crate) fn shown_act(alloc: Global, act: Act, observer: &Label) -> Result<Act, NoMemory>
    ensures { IfOk result (λ shown. shown ≡ shown_act observer.now act) }
{
    if !releases_above(&act, observer) {
        return Ok(act);
    }
    let (act, hidden) = beside(act, Held::new(alloc, Content::Hidden))?;
    Ok(with_content(act, hidden))
}

/// Whether an act seals a value under a label that doesn't flow to the observer's, so that the
/// value has to be hidden.
pub(crate) fn hides(act: &Act, observer: &Label) -> bool
    ensures { result ≡ hides observer.now act.now }
{
    match act {
        Act::Seal(label) => !label.flows(observer),
        _ => false,
    }
}
