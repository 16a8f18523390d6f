//! The rules of policies.

use crate::arguments::argument_mistake;
use crate::document::document_mistake;
use crate::files::file_mistake;
use crate::found::{Found, PolicyMistake};
use crate::labels::{flow_mistake, labels_mistake};
use crate::limits::{limit_mistake, version_mistake};
use crate::names::named_mistake;
use crate::shape::shape_mistake;
use lio_clauses::NoMemory;
use lio_policy_draft::{Draft, PolicyFault, read_draft};
use std::alloc::Global;

/// What is wrong with an entry of a policy's text that breaks a rule, and how to mend it; none
/// where nothing is found. Entry 0 is the document; principals, channels, inputs and tasks follow
/// from 1.
pub fn policy_mistake(
    alloc: Global,
    bytes: &[u8],
    rule: u32,
    entry: u32,
) -> Result<Option<PolicyMistake>, NoMemory> {
    match rule {
        1 => document_mistake(alloc, bytes),
        2 => shape_mistake(alloc, bytes, entry),
        _ => match read_draft(alloc, bytes) {
            Ok(draft) => {
                let found = draft_mistake(alloc, &draft, rule, entry);
                drop(draft);
                found
            }
            Err(PolicyFault::NoMemory) => Err(NoMemory),
            Err(PolicyFault::Bad { .. }) => Ok(None),
        },
    }
}

/// What is wrong with an entry of a policy whose shape is right.
fn draft_mistake(alloc: Global, draft: &Draft, rule: u32, entry: u32) -> Found {
    match rule {
        3 => version_mistake(alloc, draft),
        4 => named_mistake(alloc, draft, entry),
        5 => labels_mistake(alloc, draft, entry),
        6 => flow_mistake(alloc, draft, entry),
        7 => argument_mistake(alloc, draft, entry),
        8 => limit_mistake(alloc, draft, entry),
        9 => file_mistake(alloc, draft, entry),
        _ => Ok(None),
    }
}
