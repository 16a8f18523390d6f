//! The inputs that an observer sees.

ghost use Rattle.std.specs.Prelude.{◌≡◌, ◌≤◌, Ok, IfOk, IfErr, length};
ghost use Rattle.lio_outside.specs.Asking.{Give};
ghost use Rattle.lio_front.specs.Status.{Says};
ghost use Rattle.lio_observe_main.specs.Verdict.{text_seen, texts_seen};

use lio_front::{Status, fetch};
use lio_labels::Label;
use lio_outside::Store;
use lio_policy::{FileEntry, Policy};
use lio_values::{List, Text};
use std::alloc::Global;

/// Fetches an input that the observer sees, at most one byte more than the limit; of another input
/// nothing is asked, and its text is empty. The store's files stay.
fn load_text<S: Store>(
    alloc: Global,
    store: &mut S,
    observer: &Label,
    longest: u32,
    input: &FileEntry,
) -> Result<Text, Status>
    ensures files { S.holds store.new ≡ S.holds store.old }
    ensures count { (S.faults store.old).count ≤ (S.faults store.new).count }
    ensures ok { IfOk result (λ text. Give (S.holds store.old)
        (text_seen observer.now longest input.now) (Ok text)) }
    ensures err { IfErr result (Says (S.holds store.old)
        (text_seen observer.now longest input.now) (S.faults store.old) (S.faults store.new)) }
{
    if !input.label.flows(observer) {
        return Ok(Text::of(alloc, b"")?);
    }
    let bytes = fetch(alloc, store, input.file.bytes(), longest)?;
    Ok(Text::of(alloc, bytes.as_slice())?)
}

/// Fetches the inputs of a policy that the observer sees, in their order; the texts of the others
/// are empty. The store's files stay.
pub(crate) fn load_texts<S: Store>(
    alloc: Global,
    store: &mut S,
    observer: &Label,
    policy: &Policy,
) -> Result<List<Text>, Status>
    ensures files { S.holds store.new ≡ S.holds store.old }
    ensures count { (S.faults store.old).count ≤ (S.faults store.new).count }
    ensures ok { IfOk result (λ texts. Give (S.holds store.old)
        (texts_seen observer.now policy.now.longest policy.now.inputs) (Ok texts)) }
    ensures each { IfOk result (λ texts. length texts ≡ length policy.now.inputs) }
    ensures err { IfErr result (Says (S.holds store.old)
        (texts_seen observer.now policy.now.longest policy.now.inputs)
        (S.faults store.old) (S.faults store.new)) }
{
    let mut texts = List::new(alloc);
    for input in policy.inputs.as_slice() {
        texts.push(load_text(alloc, store, observer, policy.longest, input)?)?;
    }
    Ok(texts)
}
