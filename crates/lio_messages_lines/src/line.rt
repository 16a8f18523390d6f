//! What is wrong with a line.
use crate::call::without_parentheses;
use crate::extra::late_comment;
use crate::first::first_mistake;
use crate::parts::form_mistake;
use lio_clauses::{Names, NoMemory};
use lio_messages_hints::{Found, Mistake, Piece, comment_before, told_one, words_of};
use lio_syntax_lines::{Keyword, without_return};
use std::alloc::Global;
use std::str;

/// What is wrong with a line of a script over the names of principals, and how to mend it; none
/// where nothing is found.
pub fn line_mistake(
    alloc: Global,
    names: &Names,
    line: &[u8],
) -> Result<Option<Mistake>, NoMemory> {
    let line = without_return(line);
    let words = words_of(alloc, line)?;
    let [first, behind @ ..] = words.as_slice() else {
        return Ok(None);
    };
    if first.text.starts_with(b"#") {
        return Ok(None);
    }
    for (place, byte) in line.iter().enumerate() {
        if !is_plain(*byte) {
            return match comment_before(words.as_slice(), place) {
                Some(comment) => late_comment(alloc, comment),
                None => strange(alloc, line, place),
            };
        }
    }
    match Keyword::find(first.text) {
        Some(keyword) => form_mistake(alloc, names, keyword, *first, behind, line.len()),
        None => match without_parentheses(alloc, *first)? {
            Some(mistake) => Ok(Some(mistake)),
            None => first_mistake(alloc, *first, behind),
        },
    }
}

/// Whether a byte may stand outside of comments: a tab, or one from 0x20 to 0x7E.
fn is_plain(byte: u8) -> bool {
    byte == b'\t' || (0x20..=0x7e).contains(&byte)
}

/// The bytes of the character that begins here, or the one byte that begins none.
fn character(bytes: &[u8]) -> &[u8] {
    let len = match bytes {
        [0xf0..=0xf7, ..] => 4,
        [0xe0..=0xef, ..] => 3,
        [0xc0..=0xdf, ..] => 2,
        _ => 1,
    };
    match bytes.get(..len) {
        Some(whole) if str::from_utf8(whole).is_ok() => whole,
        _ => bytes.get(..1).unwrap_or(bytes),
    }
}

/// Whether a text in quotes is open behind so many bytes.
fn is_in_text(before: &[u8]) -> bool {
    let mut is_open = false;
    for byte in before {
        if *byte == b'"' {
            is_open = !is_open;
        }
    }
    is_open
}

/// A character that may stand in comments alone.
fn strange(alloc: Global, line: &[u8], place: usize) -> Found {
    let (Some(before), Some(rest)) = (line.get(..place), line.get(place..)) else {
        return Ok(None);
    };
    let shown = character(rest);
    let template = match shown {
        [0xef, 0xbb, 0xbf] if place == 0 => {
            "a byte order mark stands here; save the file without one"
        }
        [0xe2, 0x80, 0x98..=0x9f] => "{} stands here; a text stands in plain double quotes",
        [0xc2, 0xa0] => "{}, a no-break space, stands here; write a plain one",
        [b'\r'] =>
            "{} stands here; a line ends with a line feed, behind at most one carriage return",
        _ if is_in_text(before) => {
            "{} stands here; a text has its bytes as \\xhh, and only comments have others"
        }
        _ =>
            "{} stands here; a name has letters of a to z, digits and \"_\", and only comments have other signs",
    };
    told_one(alloc, place, template, Piece::Shown(shown))
}
