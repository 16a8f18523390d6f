//! Texts that are no JSON.

use crate::found::{Found, PolicyMistake, told};
use crate::json::{first_wrong, position_of};
use lio_messages_hints::{Piece, filled};
use std::alloc::Global;
use std::str;

/// The most bytes of a policy.
const MOST_BYTES: usize = 1_048_576;

/// What is wrong with the whole of a text that is no policy's document, whatever stands in it.
fn whole_mistake(bytes: &[u8]) -> Option<&'static str> {
    if bytes.len() > MOST_BYTES {
        return Some("it has more than 1048576 bytes, the most that a policy has");
    }
    match bytes {
        [0xef, 0xbb, 0xbf, ..] => Some("it begins with a byte order mark; save it without one"),
        [0xff, 0xfe, ..] | [0xfe, 0xff, ..] => Some("it is UTF-16; save it as UTF-8"),
        [b'p', b'r', b'o', b'c', b' ', ..] | [b'#', ..] => {
            Some("it looks like a script; the policy is the first of the words")
        }
        _ if bytes.trim_ascii().is_empty() => {
            Some("it is empty; a policy is JSON, one object from \"{\" to \"}\"")
        }
        _ => None,
    }
}

/// What is wrong with a text that is no policy's document.
pub(crate) fn document_mistake(alloc: Global, bytes: &[u8]) -> Found {
    if let Some(text) = whole_mistake(bytes) {
        return told(alloc, text);
    }
    if let Err(fault) = str::from_utf8(bytes) {
        let place = fault.valid_up_to();
        let byte = bytes.get(place..place.saturating_add(1)).unwrap_or(b"");
        let template = "{} stands here, and no UTF-8; a policy is UTF-8";
        return placed(
            alloc,
            bytes,
            place,
            template,
            Piece::Shown(byte),
            Piece::Nothing,
        );
    }
    match first_wrong(alloc, bytes)? {
        Some(wrong) => {
            let template = wrong.template;
            placed(
                alloc,
                bytes,
                wrong.place,
                template,
                wrong.first,
                wrong.second,
            )
        }
        None => Ok(None),
    }
}

/// A mistake at a place of a text, told by a template and what stands in it.
fn placed(
    alloc: Global,
    bytes: &[u8],
    place: usize,
    template: &str,
    first: Piece<'_>,
    second: Piece<'_>,
) -> Found {
    let text = filled(alloc, template, first, second, Piece::Nothing)?;
    Ok(Some(PolicyMistake {
        position: Some(position_of(bytes, place)),
        text,
    }))
}
