//! Arguments that name what isn't there.

use crate::entry::{Entry, entry_of, show_names};
use crate::found::{Found, told_by, told_three};
use lio_messages_hints::{Message, Piece};
use lio_policy_draft::{ArgDraft, Draft, FileDraft};
use lio_values::Text;
use std::alloc::Global;

/// Whether a name is one of a list's.
fn is_among(files: &[FileDraft], name: &Text) -> bool {
    for file in files {
        if file.name.bytes() == name.bytes() {
            return true;
        }
    }
    false
}

/// What is wrong with the name of an input or a channel.
fn no_such(
    alloc: Global,
    number: usize,
    kind: &str,
    name: &Text,
    files: &[FileDraft],
    others: &[FileDraft],
    other: &str,
) -> Found {
    if is_among(files, name) {
        return Ok(None);
    }
    let number = Piece::Number(number as u64);
    let shown = Piece::Shown(name.bytes());
    if is_among(others, name) {
        return told_three(
            alloc,
            "argument {}: \"{}\" is {}",
            number,
            shown,
            Piece::Words(other),
        );
    }
    let mut message = Message::new(alloc);
    let template = "argument {}: no {} has the name \"{}\"; there are: ";
    message.fill(template, number, Piece::Words(kind), shown);
    show_names(&mut message, files);
    told_by(message)
}

/// What is wrong with an argument, or with one in it, where the whole has this number in its task.
#[cycle(arguments)]
fn named_mistake(alloc: Global, draft: &Draft, number: usize, argument: &ArgDraft) -> Found {
    let inputs = draft.inputs.as_slice();
    let channels = draft.channels.as_slice();
    match argument {
        ArgDraft::Input(name) => no_such(
            alloc,
            number,
            "input",
            name,
            inputs,
            channels,
            "a channel, and no input",
        ),
        ArgDraft::Channel(name) => {
            no_such(
                alloc,
                number,
                "channel",
                name,
                channels,
                inputs,
                "an input, and no channel",
            )
        }
        ArgDraft::Items(arguments) => items_mistake(alloc, draft, number, arguments.as_slice()),
        _ => Ok(None),
    }
}

/// What is wrong with the arguments in the one that has this number in its task.
#[cycle(arguments)]
fn items_mistake(alloc: Global, draft: &Draft, number: usize, arguments: &[ArgDraft]) -> Found {
    for argument in arguments {
        if let Some(mistake) = named_mistake(alloc, draft, number, argument)? {
            return Ok(Some(mistake));
        }
    }
    Ok(None)
}

/// What is wrong with a task's arguments.
pub(crate) fn argument_mistake(alloc: Global, draft: &Draft, entry: u32) -> Found {
    let Entry::Task(_, task) = entry_of(draft, entry) else {
        return Ok(None);
    };
    for (place, argument) in task.args.as_slice().iter().enumerate() {
        let number = place.saturating_add(1);
        if let Some(mistake) = named_mistake(alloc, draft, number, argument)? {
            return Ok(Some(mistake));
        }
    }
    Ok(None)
}
