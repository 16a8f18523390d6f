//! Numbers of a text that is to be JSON.

use crate::json::place::byte_at;
use crate::json::wrong::{Wrong, wrong_at, wrong_byte};

/// The first place from one on at which no digit stands.
fn behind_digits(bytes: &[u8], from: usize) -> usize {
    for (digits, byte) in bytes.get(from..).unwrap_or(b"").iter().enumerate() {
        if !byte.is_ascii_digit() {
            return from.saturating_add(digits);
        }
    }
    bytes.len()
}

/// Where the digits end that are to stand at a place.
fn some_digits(bytes: &[u8], from: usize) -> Result<usize, Wrong<'_>> {
    let end = behind_digits(bytes, from);
    if end > from {
        Ok(end)
    } else {
        Err(wrong_at(from, "a digit is missing before this"))
    }
}

/// Where the whole part of a number ends, which begins behind the sign of a number.
fn whole_end(bytes: &[u8], number: usize, from: usize) -> Result<usize, Wrong<'_>> {
    let end = some_digits(bytes, from)?;
    if byte_at(bytes, from) == b'0' && end > from.saturating_add(1) {
        return Err(wrong_at(number, "no zero stands in front of a number"));
    }
    Ok(end)
}

/// Where the exponent of a number ends, if one stands at a place.
fn exponent_end(bytes: &[u8], from: usize) -> Result<usize, Wrong<'_>> {
    if !matches!(byte_at(bytes, from), b'e' | b'E') {
        return Ok(from);
    }
    let digits = from.saturating_add(1);
    match byte_at(bytes, digits) {
        b'+' | b'-' => some_digits(bytes, digits.saturating_add(1)),
        _ => some_digits(bytes, digits),
    }
}

/// Where the number ends that begins at a place.
pub(crate) fn number_end(bytes: &[u8], number: usize) -> Result<usize, Wrong<'_>> {
    let from = if byte_at(bytes, number) == b'-' {
        number.saturating_add(1)
    } else {
        number
    };
    let mut end = whole_end(bytes, number, from)?;
    if byte_at(bytes, end) == b'.' {
        end = some_digits(bytes, end.saturating_add(1))?;
    }
    let end = exponent_end(bytes, end)?;
    match byte_at(bytes, end) {
        b'a'..=b'z' | b'A'..=b'Z' | b'_' | b'.' => {
            Err(wrong_byte(bytes, end, "\"{}\" can't stand in a number"))
        }
        _ => Ok(end),
    }
}
