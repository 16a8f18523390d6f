//! Labels that can't be read, and labels above a clearance.

use crate::entry::{Entry, entry_of};
use crate::found::{Found, told_three, told_two};
use lio_clauses::{NameFault, Names, NoMemory};
use lio_messages_hints::{Mistake, Piece, formula_text_mistake, label_text_mistake};
use lio_policy_draft::{ArgDraft, Draft, TaskDraft};
use lio_values::Text;
use std::alloc::Global;

/// The names of a draft's principals.
fn names_of(alloc: Global, draft: &Draft) -> Result<Names, NoMemory> {
    let mut names = Names::new(alloc)?;
    for name in draft.principals.as_slice() {
        if let Err(NameFault::NoMemory) = names.add(alloc, name.bytes()) {
            return Err(NoMemory);
        }
    }
    Ok(names)
}

/// A mistake in the text of a key.
fn at_key(alloc: Global, key: &str, found: Option<Mistake>) -> Found {
    match found {
        Some(mistake) => told_three(
            alloc,
            "{}, at byte {}: {}",
            Piece::Words(key),
            Piece::Number(mistake.place as u64),
            Piece::Words(mistake.text.as_str()),
        ),
        None => Ok(None),
    }
}

/// What is wrong with the label at a key.
fn label_at(alloc: Global, names: &Names, key: &str, text: &Text) -> Found {
    let found = label_text_mistake(alloc, names, 0, text.bytes())?;
    at_key(alloc, key, found)
}

/// What is wrong with an argument, or with one in it, where the whole has this number in its task.
#[cycle(labels)]
fn argument_label(alloc: Global, names: &Names, argument: &ArgDraft, number: usize) -> Found {
    let key = format!(in alloc; "argument {number}")?;
    match argument {
        ArgDraft::Label(text) => label_at(alloc, names, key.as_str(), text),
        ArgDraft::Power(text) => {
            let found = formula_text_mistake(alloc, names, 0, text.bytes())?;
            at_key(alloc, key.as_str(), found)
        }
        ArgDraft::Items(arguments) => {
            argument_labels(alloc, names, arguments.as_slice(), number)
        }
        _ => Ok(None),
    }
}

/// What is wrong with the arguments in the one that has this number in its task.
#[cycle(labels)]
fn argument_labels(alloc: Global, names: &Names, arguments: &[ArgDraft], number: usize) -> Found {
    for argument in arguments {
        if let Some(mistake) = argument_label(alloc, names, argument, number)? {
            return Ok(Some(mistake));
        }
    }
    Ok(None)
}

/// What is wrong with the labels of a task.
fn task_labels(alloc: Global, names: &Names, task: &TaskDraft) -> Found {
    if let Some(mistake) = label_at(alloc, names, "\"label\"", &task.label)? {
        return Ok(Some(mistake));
    }
    if let Some(mistake) = label_at(alloc, names, "\"clearance\"", &task.clearance)? {
        return Ok(Some(mistake));
    }
    for (place, argument) in task.args.as_slice().iter().enumerate() {
        if let Some(mistake) = argument_label(alloc, names, argument, place.saturating_add(1))? {
            return Ok(Some(mistake));
        }
    }
    Ok(None)
}

/// What is wrong with the labels of an entry.
pub(crate) fn labels_mistake(alloc: Global, draft: &Draft, entry: u32) -> Found {
    let names = names_of(alloc, draft)?;
    match entry_of(draft, entry) {
        Entry::Document | Entry::Principal(_, _) => Ok(None),
        Entry::Channel(_, file) | Entry::Input(_, file) => {
            label_at(alloc, &names, "\"label\"", &file.label)
        }
        Entry::Task(_, task) => task_labels(alloc, &names, task),
    }
}

/// What is wrong with a task whose label doesn't flow to its clearance.
pub(crate) fn flow_mistake(alloc: Global, draft: &Draft, entry: u32) -> Found {
    let Entry::Task(_, task) = entry_of(draft, entry) else {
        return Ok(None);
    };
    let template =
        "its label {} doesn't flow to its clearance {}; raise the clearance, or lower the label";
    let clearance = Piece::Shown(task.clearance.bytes());
    told_two(alloc, template, Piece::Shown(task.label.bytes()), clearance)
}
