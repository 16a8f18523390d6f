//! Commands on policies.

use crate::refusal::{Answered, Refusal};
use lio_clauses::NoMemory;
use lio_policy::{FileEntry, MayFlow, Policy, read_policy, what_may_flow};
use lio_policy_draft::{EntryAt, EntryKind, entry_at};
use lio_rows_commands::Answer;
use lio_rows_fields::read_number;
use std::alloc::{AllocError, Global};

/// What a command on policies answers, if the word and the number of fields are those of one.
pub fn answer(alloc: Global, word: &str, fields: &[Vec<u8>]) -> Answered {
    match (word, fields) {
        ("policy", [json]) => Some(policy(alloc, json.as_slice())),
        ("policy_entry", [number, json]) => Some(entry(alloc, number, json)),
        ("flows", [json]) => Some(flows(alloc, json.as_slice())),
        _ => None,
    }
}

/// `policy JSON`: `ok` and its numbers of principals, channels, inputs and tasks.
fn policy(alloc: Global, json: &[u8]) -> Result<Answer, Refusal> {
    let policy = read_policy(alloc, json)?;
    let text = counts(alloc, &policy)?;
    Ok(Answer::Text(text))
}

/// The text of a policy's numbers of principals, channels, inputs and tasks.
fn counts(alloc: Global, policy: &Policy) -> Result<Vec<u8>, AllocError> {
    let principals = policy.names.len();
    let channels = policy.channels.as_slice().len();
    let inputs = policy.inputs.as_slice().len();
    let tasks = policy.tasks.as_slice().len();
    let text = format!(in alloc; "ok {principals} {channels} {inputs} {tasks}")?;
    Ok(text.into_bytes())
}

/// `policy_entry NUMBER JSON`: the kind of the entry with this number, its place in its list and
/// its name, or `none`.
fn entry(alloc: Global, number: &[u8], json: &[u8]) -> Result<Answer, Refusal> {
    let text = match entry_at(alloc, json, read_number(number)?)? {
        Some(entry) => entry_text(alloc, &entry),
        None => Vec::from_slice(alloc, b"none"),
    };
    Ok(Answer::Text(text?))
}

/// The word for a kind of entry.
fn kind_name(kind: EntryKind) -> &'static str {
    match kind {
        EntryKind::Document => "document",
        EntryKind::Principal => "principal",
        EntryKind::Channel => "channel",
        EntryKind::Input => "input",
        EntryKind::Task => "task",
    }
}

/// The text of an entry.
fn entry_text(alloc: Global, entry: &EntryAt) -> Result<Vec<u8>, AllocError> {
    let kind = kind_name(entry.kind);
    let place = entry.place;
    let mut text = format!(in alloc; "{kind} {place}")?.into_bytes();
    if let Some(name) = &entry.name {
        text.extend_from_slice(b" ")?;
        text.extend_from_slice(name.bytes())?;
    }
    Ok(text)
}

/// `flows JSON`: what the policy lets flow from its inputs to its channels.
fn flows(alloc: Global, json: &[u8]) -> Result<Answer, Refusal> {
    let policy = read_policy(alloc, json)?;
    Ok(Answer::Text(flows_text(alloc, &policy)?))
}

/// A line for each channel: its name, and of each input behind a tab its name and what may flow.
fn flows_text(alloc: Global, policy: &Policy) -> Result<Vec<u8>, NoMemory> {
    let rows = what_may_flow(alloc, policy)?;
    let mut text = Vec::new(alloc);
    for (channel, row) in policy.channels.as_slice().iter().zip(rows.as_slice()) {
        text.extend_from_slice(channel.name.bytes())?;
        for (input, flow) in policy.inputs.as_slice().iter().zip(row.as_slice()) {
            push_flow(&mut text, input, *flow)?;
        }
        text.push(b'\n')?;
    }
    Ok(text)
}

/// Writes a tab, an input's name, and what may flow from it.
fn push_flow(text: &mut Vec<u8>, input: &FileEntry, flow: MayFlow) -> Result<(), AllocError> {
    text.extend_from_slice(b"\t")?;
    text.extend_from_slice(input.name.bytes())?;
    text.extend_from_slice(flow_words(flow))
}

/// The words for what may flow, with a blank before them.
fn flow_words(flow: MayFlow) -> &'static [u8] {
    match flow {
        MayFlow::Never => b" never",
        MayFlow::OnlyByPrivilege => b" by privilege",
        MayFlow::May => b" may",
    }
}
