//! Lists: how they go on and end.
ghost use Rattle.std.specs.Prelude.{◌≡◌, ◌≤◌};
ghost use Rattle.lio_values.specs.Views.{values_of};
ghost use Rattle.lio_events_reading.specs.Lists as spec;

use lio_values::Items;

/// How deep a list is at most.
pub(crate) const DEPTH: u64 = 8;

/// Whether an item stands at the front: `[` and no `]` behind it, or `,`.
pub(crate) fn begins_item(bytes: &[u8]) -> bool
    ensures { result ≡ spec.begins_item bytes.now }
{
    match bytes {
        [b'[', b']', ..] => false,
        [b'[' | b',', ..] => true,
        _ => false,
    }
}

/// How many bytes stand before the next item: `[` before the first, and else `, `.
pub(crate) fn sign_len(items: &Items) -> usize
    ensures len { result ≡ spec.sign_len (values_of items.now) }
    ensures some { 1 ≤ result }
    ensures few { result ≤ 2 }
{
    if items.as_slice().is_empty() { 1 } else { 2 }
}
