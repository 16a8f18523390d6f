//! Looking into a JSON value.
#![tactic(auto, unfolding(crate::specs::Shape::of_32_bits))]

ghost use Rattle.std.specs.Prelude.{◌≡◌, IfOk, map, option_map};
ghost use Rattle.serde_json.specs.Find.{as_str};
ghost use Rattle.serde_json.specs.View.{view};
ghost use Rattle.lio_policy_draft.specs.Shape as spec;

use lio_clauses::NoMemory;
use lio_values::Text;
use serde_json::Value;
use std::alloc::Global;

/// Whether a value is an object with exactly these keys, given in rising order.
pub(crate) fn has_keys(value: &Value, keys: &[&str]) -> bool
    ensures { result ≡ spec.has_keys (map (λ key. key.now) keys.now) (view value.now) }
{
    let Some(members) = value.as_object() else {
        return false;
    };
    let mut left = keys;
    for (name, _) in members {
        let [key, behind @ ..] = left else {
            return false;
        };
        if name.as_str() != *key {
            return false;
        }
        left = behind;
    }
    left.is_empty()
}

/// The text that a value is.
pub(crate) fn text_of(alloc: Global, value: &Value) -> Result<Option<Text>, NoMemory>
    ensures { IfOk result (λ text. text ≡ as_str (view value.now)) }
{
    match value.as_str() {
        Some(text) => Ok(Some(Text::of(alloc, text.as_bytes())?)),
        None => Ok(None),
    }
}

/// The text at a key.
pub(crate) fn text_at(alloc: Global, value: &Value, key: &str) -> Result<Option<Text>, NoMemory>
    ensures { IfOk result (λ text. text ≡ spec.text_at key.now (view value.now)) }
{
    let Some(found) = value.get(key) else {
        return Ok(None);
    };
    text_of(alloc, found)
}

/// The items of the array at a key.
#[tactic(auto, using(crate::proofs::ShapeLemmas::list_of_items))]
pub(crate) fn items_at<'v>(value: &'v Value, key: &str) -> Option<&'v [Value]>
    ensures { option_map (λ items. map view items.now) result
        ≡ spec.items_at key.now (view value.now) }
{
    let found = value.get(key)?;
    let items = found.as_array()?;
    Some(items.as_slice())
}

/// The whole number at a key, none for a negative one.
pub(crate) fn whole_at(value: &Value, key: &str) -> Option<Option<u64>>
    ensures { result ≡ spec.whole_at key.now (view value.now) }
{
    let found = value.get(key)?;
    match found.as_u64() {
        Some(number) => Some(Some(number)),
        None if found.is_i64() => Some(None),
        None => None,
    }
}

/// A number that has 32 bits.
fn of_32_bits(number: u64) -> Option<u32>
    ensures { result ≡ spec.of_32_bits number }
{
    u32::try_from(number).ok()
}

/// The whole number of 32 bits without sign at a key.
pub(crate) fn count_at(value: &Value, key: &str) -> Option<u32>
    ensures { result ≡ spec.count_at key.now (view value.now) }
{
    let found = value.get(key)?;
    of_32_bits(found.as_u64()?)
}
