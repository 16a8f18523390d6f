//! Which thing in a policy's text an entry is.
ghost use Rattle.std.specs.Prelude.{◌≡◌, ◌+◌, ◌-◌, ◌<◌, ◌^◌, IfOk, Some, map, length, slice_get};
ghost use Rattle.serde_json.specs.View.{view};
ghost use Rattle.lio_policy_draft.specs.Failing.{entries};
ghost use Rattle.lio_policy_draft.specs.Entries as spec;
ghost use Rattle.lio_policy_draft.specs.Entries.{list_at, name_in, placed, things};

use crate::document::read_value;
use crate::fault::PolicyFault;
use crate::json::{items_at, text_at, text_of};
use lio_clauses::NoMemory;
use lio_values::Text;
use serde_json::Value;
use std::alloc::Global;

/// What an entry of a policy's text is.
#[derive(Debug, Clone, Copy, PartialEq, Eq)]
pub enum EntryKind {
    /// The whole text.
    Document,
    Principal,
    Channel,
    Input,
    Task,
}

/// An entry of a policy's text.
#[derive(Debug, Drop)]
pub struct EntryAt {
    pub kind: EntryKind,
    /// Its place in its list, from 1; 0 for the document.
    pub place: u32,
    /// Its name, where it has a text for one.
    pub name: Option<Text>,
}

/// The items of the list at a key, none where no list is there.
fn list_at<'v>(document: &'v Value, key: &str) -> &'v [Value]
    ensures { map view result.now ≡ list_at key.now (view document.now) }
{
    match items_at(document, key) {
        Some(items) => items,
        None => &[],
    }
}

/// The name of an item.
fn name_in(alloc: Global, kind: EntryKind, item: &Value) -> Result<Option<Text>, NoMemory>
    ensures { IfOk result (λ name. name ≡ name_in kind (view item.now)) }
{
    match kind {
        EntryKind::Principal => text_of(alloc, item),
        _ => text_at(alloc, item, "name"),
    }
}

/// The item of a list at an index, as an entry.
fn item_at(
    alloc: Global,
    kind: EntryKind,
    items: &[Value],
    index: usize,
) -> Result<Option<EntryAt>, NoMemory>
    requires within { index < length items.now }
    requires small { index < 2 ^ 32 - 1 }
    ensures { IfOk result (λ found. found ≡ slice_get (placed kind 1 (map view items.now)) index) }
{
    let name = name_in(alloc, kind, &items[index])?;
    Ok(Some(EntryAt {
        kind,
        place: 1 + index as u32,
        name,
    }))
}

/// The entry of a document that has this number, counted from the first principal, which has 0.
fn listed(alloc: Global, document: &Value, number: u32) -> Result<Option<EntryAt>, NoMemory>
    requires { number < 2 ^ 32 - 1 }
    ensures { IfOk result
        (λ found. found ≡ slice_get (entries (things (Some (view document.now)))) (number + 1)) }
{
    let index = number as usize;
    let principals = list_at(document, "principals");
    if index < principals.len() {
        return item_at(alloc, EntryKind::Principal, principals, index);
    }
    let index = index - principals.len();
    let channels = list_at(document, "channels");
    if index < channels.len() {
        return item_at(alloc, EntryKind::Channel, channels, index);
    }
    let index = index - channels.len();
    let inputs = list_at(document, "inputs");
    if index < inputs.len() {
        return item_at(alloc, EntryKind::Input, inputs, index);
    }
    let index = index - inputs.len();
    let tasks = list_at(document, "tasks");
    if index < tasks.len() {
        return item_at(alloc, EntryKind::Task, tasks, index);
    }
    Ok(None)
}

/// The entry of a text that has this number, also where the text breaks a rule: entry 0 is the
/// document, and the items of the lists that are there follow from 1, principals, channels, inputs
/// and tasks in this order.
pub fn entry_at(alloc: Global, bytes: &[u8], entry: u32) -> Result<Option<EntryAt>, NoMemory>
    ensures { IfOk result (λ found. found ≡ spec.entry_at bytes.now entry) }
{
    if entry == 0 {
        return Ok(Some(EntryAt {
            kind: EntryKind::Document,
            place: 0,
            name: None,
        }));
    }
    match read_value(alloc, bytes) {
        Ok(document) => listed(alloc, &document, entry - 1),
        Err(PolicyFault::NoMemory) => Err(NoMemory),
        Err(PolicyFault::Bad { .. }) => Ok(None),
    }
}
