//! Names that are none, or are there before.

use crate::entry::{Entry, entry_of};
use crate::found::{Found, told, told_one};
use lio_clauses::name_fault;
use lio_messages_hints::Piece;
use lio_policy_draft::{Draft, FileDraft, TaskDraft};
use lio_values::Text;
use std::alloc::Global;

/// The most principals.
const MOST_PRINCIPALS: usize = 64;

/// What is wrong with a name that stands behind these in its list.
fn name_mistake(alloc: Global, name: &Text, before: &[&Text]) -> Found {
    if let Some(at) = name_fault(name.bytes()) {
        return no_name(alloc, name, at as usize);
    }
    for (i, other) in before.iter().enumerate() {
        if other.bytes() == name.bytes() {
            let number = i.saturating_add(1);
            let template = "its name is that of number {} of its list";
            return told_one(alloc, template, Piece::Number(number as u64));
        }
    }
    Ok(None)
}

/// What is wrong with the name of a channel or an input, which has a place in its list.
fn file_name_mistake(alloc: Global, files: &[FileDraft], place: usize, name: &Text) -> Found {
    let mut before = Vec::new(alloc);
    for file in files.iter().take(place) {
        before.push(&file.name)?;
    }
    name_mistake(alloc, name, before.as_slice())
}

/// What is wrong with the name of a task, which has a place in its list.
fn task_name_mistake(alloc: Global, tasks: &[TaskDraft], place: usize, name: &Text) -> Found {
    let mut before = Vec::new(alloc);
    for task in tasks.iter().take(place) {
        before.push(&task.name)?;
    }
    name_mistake(alloc, name, before.as_slice())
}

/// What is wrong with the name of a principal, which has a place in its list.
fn principal_mistake(alloc: Global, principals: &[Text], place: usize, name: &Text) -> Found {
    let mut before = Vec::new(alloc);
    for principal in principals.iter().take(place) {
        before.push(principal)?;
    }
    match name_mistake(alloc, name, before.as_slice())? {
        None if place >= MOST_PRINCIPALS => { told(alloc, "there are at most 64 principals") }
        found => Ok(found),
    }
}

/// A text that is no name, by the place of the byte that can't stand in it.
fn no_name(alloc: Global, name: &Text, at: usize) -> Found {
    let bytes = name.bytes();
    let wrong = Piece::Shown(bytes.get(at..at.saturating_add(1)).unwrap_or(b""));
    let (template, piece) = match bytes {
        [] => ("its name is empty", Piece::Nothing),
        _ if at >= 32 => {
            let count = Piece::Number(bytes.len() as u64);
            ("its name has {} bytes; a name has at most 32", count)
        }
        [b'0'..=b'9' | b'_', ..] => ("a name begins with a letter of a to z", Piece::Nothing),
        _ => (
            "\"{}\" can't stand in a name; the letters a to z, digits and \"_\" do",
            wrong,
        ),
    };
    told_one(alloc, template, piece)
}

/// What is wrong with the name of an entry.
pub(crate) fn named_mistake(alloc: Global, draft: &Draft, entry: u32) -> Found {
    match entry_of(draft, entry) {
        Entry::Document => Ok(None),
        Entry::Principal(place, name) => {
            principal_mistake(alloc, draft.principals.as_slice(), place, name)
        }
        Entry::Channel(place, file) => {
            file_name_mistake(alloc, draft.channels.as_slice(), place, &file.name)
        }
        Entry::Input(place, file) => {
            file_name_mistake(alloc, draft.inputs.as_slice(), place, &file.name)
        }
        Entry::Task(place, task) => {
            task_name_mistake(alloc, draft.tasks.as_slice(), place, &task.name)
        }
    }
}
