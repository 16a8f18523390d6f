//! The inputs.

ghost use Rattle.std.specs.Prelude.{◌≡◌, ◌≤◌, Ok, IfOk, IfErr, length};
ghost use Rattle.lio_outside.specs.Asking.{Give};
ghost use Rattle.lio_front.specs.Status.{Says};
ghost use Rattle.lio_front.specs.Loading as spec;

use crate::loading::fetch;
use crate::status::Status;
use lio_outside::Store;
use lio_policy::Policy;
use lio_values::{List, Text};
use std::alloc::Global;

/// Fetches the inputs of a policy in their order, of each at most one byte more than `longest`. The
/// store's files stay.
pub fn load_inputs<S: Store>(
    alloc: Global,
    store: &mut S,
    policy: &Policy,
) -> Result<List<Text>, Status>
    ensures files { S.holds store.new ≡ S.holds store.old }
    ensures count { (S.faults store.old).count ≤ (S.faults store.new).count }
    ensures ok { IfOk result (λ texts. Give (S.holds store.old)
        (spec.texts policy.now.longest policy.now.inputs) (Ok texts)) }
    ensures each { IfOk result (λ texts. length texts ≡ length policy.now.inputs) }
    ensures err { IfErr result (Says (S.holds store.old)
        (spec.texts policy.now.longest policy.now.inputs)
        (S.faults store.old) (S.faults store.new)) }
{
    let mut texts = List::new(alloc);
    for input in policy.inputs.as_slice() {
        let bytes = fetch(alloc, store, input.file.bytes(), policy.longest)?;
        texts.push(Text::of(alloc, bytes.as_slice())?)?;
    }
    Ok(texts)
}
