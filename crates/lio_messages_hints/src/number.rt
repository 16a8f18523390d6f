//! What is wrong with a word that begins as a number does.
use crate::message::Piece;
use crate::mistake::{Found, told, told_one};
use crate::operand::TWO_LINES;
use crate::sign::joined_mistake;
use crate::words::Word;
use lio_clauses::Names;
use lio_syntax_lines::is_name;
use std::alloc::Global;

/// The place of the first byte behind the first that is no digit, if there is one.
fn no_digit(word: &[u8]) -> Option<usize> {
    for (at, byte) in word.iter().enumerate().skip(1) {
        if !byte.is_ascii_digit() {
            return Some(at);
        }
    }
    None
}

/// A byte of a number that can't stand in it.
fn wrong_digit(alloc: Global, word: Word<'_>, at: usize) -> Found {
    let shown = word.text.get(at..at.saturating_add(1)).unwrap_or(b"");
    let text = match shown {
        [b'.'] => "there are whole numbers alone",
        [b'('] => TWO_LINES,
        [b':' | b'{' | b'}'] => {
            let template = "no \"{}\" ends a line or begins a block";
            return told_one(alloc, word.inside(at), template, Piece::Shown(shown));
        }
        _ => {
            let template = "\"{}\" can't stand in a whole number; it has decimal digits alone";
            return told_one(alloc, word.inside(at), template, Piece::Shown(shown));
        }
    };
    told(alloc, word.place, text)
}

/// What is wrong with a word that begins like a number.
pub(crate) fn number_mistake(alloc: Global, names: &Names, word: Word<'_>) -> Found {
    if let Some(mistake) = joined_mistake(alloc, names, word)? {
        return Ok(Some(mistake));
    }
    let text = match word.text {
        [b'-', name @ ..] if is_name(name) => {
            let template = "\"neg {}\" gives the negative, on a line of its own";
            return told_one(alloc, word.place, template, Piece::Shown(name));
        }
        [b'+', ..] => "a whole number has no \"+\" in front",
        text => match no_digit(text) {
            Some(at) => return wrong_digit(alloc, word, at),
            None => {
                "a whole number has 64 bits with sign, from -9223372036854775808 to 9223372036854775807"
            }
        },
    };
    told(alloc, word.place, text)
}
