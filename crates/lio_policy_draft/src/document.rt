//! Rules 1 and 2: the document and its shape.
#![tactic(auto, unfolding(crate::specs::Shape::parts_of))]

ghost use Rattle.std.specs.Prelude.{◌≡◌, ◌⊎◌, IfOk, IfErr, Some, None, option_map, Ok, Err};
ghost use Rattle.serde_json.specs.View.{view};
ghost use Rattle.lio_policy_draft.specs.Shape.{parts_of};
ghost use Rattle.lio_policy_draft.specs.Drafted.{document_of, draft_of, from_parts, drafted};
ghost use Rattle.lio_policy_draft.specs.Parts.{parts_view};

use crate::draft::Draft;
use crate::entries::{FIRST_PRINCIPAL, each_entry, fault_at};
use crate::fault::PolicyFault;
use crate::json::{has_keys, items_at, whole_at};
use crate::shape::Shape;
use serde_json::Value;
use std::alloc::Global;

const MOST_BYTES: usize = 1_048_576;

/// The number of the rule on the text, and of the rule on the shape of what it says.
const TEXT: u32 = 1;

const SHAPE: u32 = 2;

/// The value that a text is.
pub(crate) fn read_value(alloc: Global, bytes: &[u8]) -> Result<Value, PolicyFault>
    ensures ok { IfOk result (λ value. document_of bytes.now ≡ Some (view value)) }
    ensures fault { IfErr result (λ fault. (fault ≡ PolicyFault.NoMemory)
        ⊎ ((fault ≡ PolicyFault.Bad 1 0) × (document_of bytes.now ≡ None))) }
{
    if bytes.len() > MOST_BYTES {
        return Err(fault_at(TEXT, 0));
    }
    match Value::from_slice(alloc, bytes) {
        Ok(value) => Ok(value),
        Err(refused) => {
            if refused.is_memory() {
                return Err(PolicyFault::NoMemory);
            }
            Err(fault_at(TEXT, 0))
        }
    }
}

/// What the document has: its version and its longest text, and the values in its four lists.
#[derive(Drop)]
struct Parts<'v> {
    version: Option<u64>,
    longest: Option<u64>,
    principals: &'v [Value],
    channels: &'v [Value],
    inputs: &'v [Value],
    tasks: &'v [Value],
}

/// The parts of a document.
fn parts_of<'v>(value: &'v Value) -> Option<Parts<'v>>
    ensures { option_map parts_view result ≡ parts_of (view value.now) }
{
    if !has_keys(
        value,
        &[
            "channels",
            "inputs",
            "longest",
            "principals",
            "tasks",
            "version",
        ],
    ) {
        return None;
    }
    let version = whole_at(value, "version")?;
    let longest = whole_at(value, "longest")?;
    let principals = items_at(value, "principals")?;
    let channels = items_at(value, "channels")?;
    let inputs = items_at(value, "inputs")?;
    let tasks = items_at(value, "tasks")?;
    Some(Parts {
        version,
        longest,
        principals,
        channels,
        inputs,
        tasks,
    })
}

/// The draft that a document is.
fn draft_in(alloc: Global, value: &Value) -> Result<Draft, PolicyFault>
    ensures ok { IfOk result (λ draft. from_parts (parts_of (view value.now)) ≡ Ok draft) }
    ensures fault { IfErr result (λ fault. (fault ≡ PolicyFault.NoMemory)
        ⊎ (from_parts (parts_of (view value.now)) ≡ Err fault)) }
{
    match parts_of(value) {
        Some(parts) => drafted(alloc, &parts),
        None => Err(fault_at(SHAPE, 0)),
    }
}

/// The draft that the parts of a document make.
fn drafted(alloc: Global, parts: &Parts<'_>) -> Result<Draft, PolicyFault>
    ensures ok { IfOk result (λ draft. drafted (parts_view parts.now) ≡ Ok draft) }
    ensures fault { IfErr result (λ fault. (fault ≡ PolicyFault.NoMemory)
        ⊎ (drafted (parts_view parts.now) ≡ Err fault)) }
{
    let first_channel = FIRST_PRINCIPAL + parts.principals.len() as u128;
    let first_input = first_channel + parts.channels.len() as u128;
    let first_task = first_input + parts.inputs.len() as u128;
    let shape = Shape {
        version: parts.version,
    };
    let principals = each_entry(alloc, &shape, parts.principals, SHAPE, FIRST_PRINCIPAL)?;
    let channels = each_entry(alloc, &shape, parts.channels, SHAPE, first_channel)?;
    let inputs = each_entry(alloc, &shape, parts.inputs, SHAPE, first_input)?;
    let tasks = each_entry(alloc, &shape, parts.tasks, SHAPE, first_task)?;
    Ok(Draft {
        version: parts.version,
        longest: parts.longest,
        principals,
        channels,
        inputs,
        tasks,
    })
}

/// The draft that a text is, or the first rule on its shape that it breaks with the first entry
/// that does.
pub fn read_draft(alloc: Global, bytes: &[u8]) -> Result<Draft, PolicyFault>
    ensures ok { IfOk result (λ draft. draft_of bytes.now ≡ Ok draft) }
    ensures fault { IfErr result (λ fault. (fault ≡ PolicyFault.NoMemory)
        ⊎ (draft_of bytes.now ≡ Err fault)) }
{
    match read_value(alloc, bytes) {
        Ok(value) => {
            let draft = draft_in(alloc, &value);
            drop(value);
            draft
        }
        Err(fault) => Err(fault),
    }
}
