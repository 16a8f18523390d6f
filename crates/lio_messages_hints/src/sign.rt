//! Signs in the midst of a word that is to be a name or a value.
use crate::foreign::{METHODS, SIGNS, mend_in};
use crate::message::Piece;
use crate::mistake::{Found, told, told_one, told_two};
use crate::operand::is_operand;
use crate::words::{Word, place_of_byte};
use lio_clauses::Names;
use lio_syntax_lines::{Two, is_name};
use std::alloc::Global;

/// Whether a byte belongs to a sign that stands between two values.
fn is_sign(byte: u8) -> bool {
    b"+-*/%<>=!&|^.".contains(&byte)
}

/// The place of the first sign in a word behind its first byte, if there is one.
fn first_sign(word: &[u8]) -> Option<usize> {
    for (at, byte) in word.iter().enumerate().skip(1) {
        if is_sign(*byte) {
            return Some(at);
        }
    }
    None
}

/// How many bytes the sign has with which a text begins.
fn sign_length(text: &[u8]) -> usize {
    for (at, byte) in text.iter().enumerate() {
        if !is_sign(*byte) {
            return at;
        }
    }
    text.len()
}

/// Two values with a sign between them and without blanks, or the first value and the sign.
pub fn joined_mistake(alloc: Global, names: &Names, word: Word<'_>) -> Found {
    let Some(at) = first_sign(word.text) else {
        return Ok(None);
    };
    let left = word.text.get(..at).unwrap_or(b"");
    let rest = word.text.get(at..).unwrap_or(b"");
    let length = sign_length(rest);
    let sign = rest.get(..length).unwrap_or(b"");
    let right = rest.get(length..).unwrap_or(b"");
    if !is_operand(alloc, names, left)? {
        return Ok(None);
    }
    if !right.is_empty() && !is_operand(alloc, names, right)? {
        return Ok(None);
    }
    let shown = Piece::Shown(sign);
    let place = word.inside(at);
    if sign == b"-".as_slice() && is_name(left) && is_name(right) {
        let template =
            "\"{}\" can't stand in a name; as an operator it has a blank before and behind it";
        return told_one(alloc, place, template, shown);
    }
    if Two::find(sign).is_some() {
        return told_one(
            alloc,
            place,
            "a blank stands before and behind \"{}\"",
            shown,
        );
    }
    match mend_in(&SIGNS, sign) {
        Some(mend) => told_two(
            alloc,
            place,
            "there is no \"{}\"; {}",
            shown,
            Piece::Words(mend),
        ),
        None => Ok(None),
    }
}

/// A name with brackets behind it.
pub(crate) fn index_mistake(alloc: Global, names: &Names, word: Word<'_>) -> Found {
    let Some(at) = place_of_byte(word.text, b'[') else {
        return Ok(None);
    };
    let list = word.text.get(..at).unwrap_or(b"");
    let inside = word.text.get(at.saturating_add(1)..).unwrap_or(b"");
    if !is_name(list) {
        return Ok(None);
    }
    let place = word.inside(at);
    if let [index @ .., b']'] = inside
        && is_operand(alloc, names, index)?
    {
        let template =
            "\"{} at {}\" gives an item of a list; \"from\" and \"upto\" give a part of a text";
        return told_two(
            alloc,
            place,
            template,
            Piece::Shown(list),
            Piece::Shown(index),
        );
    }
    let text = if inside.contains(&b':') {
        "\"A from B\" and \"A upto B\" give a part of a text or a list, each on a line of its own"
    } else {
        "\"A at B\" gives an item of a list; \"from\" and \"upto\" give a part of a text"
    };
    told(alloc, place, text)
}

/// A name with a point behind it. `bound` is the name that is bound to what is wanted.
pub fn method_mistake(alloc: Global, bound: &[u8], word: Word<'_>) -> Found {
    let Some(at) = place_of_byte(word.text, b'.') else {
        return Ok(None);
    };
    let value = word.text.get(..at).unwrap_or(b"");
    if !is_name(value) {
        return Ok(None);
    }
    let method = word.text.get(at.saturating_add(1)..).unwrap_or(b"");
    if method.starts_with(b".") {
        return Ok(None);
    }
    let end = place_of_byte(method, b'(').unwrap_or(method.len());
    let place = word.inside(at);
    match mend_in(&METHODS, method.get(..end).unwrap_or(method)) {
        Some(template) => told_two(
            alloc,
            place,
            template,
            Piece::Shown(bound),
            Piece::Shown(value),
        ),
        None => told(
            alloc,
            place,
            "\".\" can't stand in a name, and no value has fields or methods",
        ),
    }
}

/// What is wrong with a word that begins as a name does and goes on with a sign.
pub(crate) fn inner_mistake(alloc: Global, names: &Names, bound: &[u8], word: Word<'_>) -> Found {
    if let Some(mistake) = joined_mistake(alloc, names, word)? {
        return Ok(Some(mistake));
    }
    if let Some(mistake) = index_mistake(alloc, names, word)? {
        return Ok(Some(mistake));
    }
    method_mistake(alloc, bound, word)
}
