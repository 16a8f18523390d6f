//! Texts in quotes of a text that is to be JSON.

use crate::json::place::byte_at;
use crate::json::wrong::{Wrong, wrong_at, wrong_byte};
use lio_messages_hints::Piece;

/// The number that four hexadecimal digits write at a place, if they stand there.
fn number_at(bytes: &[u8], place: usize) -> Option<u32> {
    let digits = bytes.get(place..place.saturating_add(4))?;
    let mut number = 0u32;
    for digit in digits {
        let value = match *digit {
            b'0'..=b'9' => digit.wrapping_sub(b'0'),
            b'a'..=b'f' => digit.wrapping_sub(b'a').wrapping_add(10),
            b'A'..=b'F' => digit.wrapping_sub(b'A').wrapping_add(10),
            _ => return None,
        };
        number = number.wrapping_mul(16).wrapping_add(u32::from(value));
    }
    Some(number)
}

/// How many bytes the escape has that begins with `\u` at a place.
fn number_escape(bytes: &[u8], place: usize) -> Result<usize, Wrong<'_>> {
    let Some(first) = number_at(bytes, place.saturating_add(2)) else {
        return Err(wrong_at(place, "four hexadecimal digits stand behind \\u"));
    };
    if !(0xd800..=0xdfff).contains(&first) {
        return Ok(6);
    }
    let second = match bytes.get(place.saturating_add(6)..place.saturating_add(8)) {
        Some([b'\\', b'u']) => number_at(bytes, place.saturating_add(8)).unwrap_or(0),
        _ => 0,
    };
    if first < 0xdc00 && (0xdc00..=0xdfff).contains(&second) {
        return Ok(12);
    }
    Err(Wrong {
        place,
        template: "{} is half of a surrogate pair; both halves stand side by side, as in \\ud83d\\ude00",
        first: Piece::Shown(bytes.get(place..place.saturating_add(6)).unwrap_or(b"\\u")),
        second: Piece::Nothing,
    })
}

/// How many bytes the escape has that begins at a place.
fn escape_length(bytes: &[u8], place: usize) -> Result<usize, Wrong<'_>> {
    match byte_at(bytes, place.saturating_add(1)) {
        b'"' | b'\\' | b'/' | b'b' | b'f' | b'n' | b'r' | b't' => Ok(2),
        b'u' => number_escape(bytes, place),
        _ => Err(Wrong {
            place,
            template: "\"{}\" is no escape of JSON; a backslash is written \\\\, as in \"alice /\\\\ bob\"",
            first: Piece::Shown(bytes.get(place..place.saturating_add(2)).unwrap_or(b"\\")),
            second: Piece::Nothing,
        }),
    }
}

/// A control character at a place of the text that begins at another.
fn control<'t>(bytes: &'t [u8], quote: usize, place: usize) -> Wrong<'t> {
    match byte_at(bytes, place) {
        b'\n' | b'\r' => wrong_at(
            quote,
            "the text that begins here has no closing quote on its line; a line end in a text is written \\n",
        ),
        b'\t' => wrong_at(place, "in a text a tab is written \\t"),
        _ => wrong_byte(
            bytes,
            place,
            "{} can't stand in a text; it is written by its number, as in \\u0001",
        ),
    }
}

/// Where the text ends that begins with the quote at a place.
pub(crate) fn text_end(bytes: &[u8], quote: usize) -> Result<usize, Wrong<'_>> {
    let from = quote.saturating_add(1);
    let mut next = from;
    for (length, byte) in bytes.get(from..).unwrap_or(b"").iter().enumerate() {
        let place = from.saturating_add(length);
        if place < next {
            continue;
        }
        match *byte {
            b'"' => return Ok(place.saturating_add(1)),
            b'\\' => next = place.saturating_add(escape_length(bytes, place)?),
            0..=0x1f => return Err(control(bytes, quote, place)),
            _ => {}
        }
    }
    Err(wrong_at(quote, "the text that begins here has no closing quote"))
}
