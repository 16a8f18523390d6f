//! Names of files.

use crate::entry::{Entry, entry_of};
use crate::found::{Found, told_one, told_two};
use lio_messages_hints::Piece;
use lio_policy_draft::{Draft, FileDraft};
use std::alloc::Global;

/// The most bytes of a file's name.
const MOST_NAME: usize = 255;

/// The first of some channels or inputs that has a file with this name.
fn with_file<'d>(files: &'d [FileDraft], count: usize, file: &[u8]) -> Option<&'d FileDraft> {
    for other in files.iter().take(count) {
        if other.file.bytes() == file {
            return Some(other);
        }
    }
    None
}

/// What is wrong with the name of a file that is one. So many channels and inputs stand before it.
fn taken_mistake(
    alloc: Global,
    draft: &Draft,
    file: &[u8],
    channels: usize,
    inputs: usize,
) -> Found {
    let channel = with_file(draft.channels.as_slice(), channels, file);
    let input = with_file(draft.inputs.as_slice(), inputs, file);
    let (template, other) = match (channel, input) {
        (Some(other), _) => ("its file {} is that of the channel \"{}\"", other),
        (None, Some(other)) => ("its file {} is that of the input \"{}\"", other),
        (None, None) => return Ok(None),
    };
    let name = Piece::Shown(other.name.bytes());
    told_two(alloc, template, Piece::Shown(file), name)
}

/// What is wrong with the name of a file. So many channels and inputs stand before it.
fn name_mistake(
    alloc: Global,
    draft: &Draft,
    file: &[u8],
    channels: usize,
    inputs: usize,
) -> Found {
    let wrong = match file {
        [] => "\"file\" is empty",
        [b'-', ..] => "the name of a file doesn't begin with \"-\"",
        _ if file.len() > MOST_NAME => { "the name of its file has {} bytes; it has at most 255" }
        _ if file.contains(&0) => "the name of its file has a zero byte",
        _ => return taken_mistake(alloc, draft, file, channels, inputs),
    };
    told_one(alloc, wrong, Piece::Number(file.len() as u64))
}

/// What is wrong with the file of an entry.
pub(crate) fn file_mistake(alloc: Global, draft: &Draft, entry: u32) -> Found {
    match entry_of(draft, entry) {
        Entry::Channel(place, file) => name_mistake(alloc, draft, file.file.bytes(), place, 0),
        Entry::Input(place, file) => {
            let channels = draft.channels.as_slice().len();
            name_mistake(alloc, draft, file.file.bytes(), channels, place)
        }
        _ => Ok(None),
    }
}
