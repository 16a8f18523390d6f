//! How bytes are written in a line: a line end as `~n`, a tab as `~t`, and `~` as `~7e`.
ghost use Rattle.std.specs.Prelude.{◌≡◌, ◌++◌, ◌<◌, length, IfOk, IfSome, OnOk};
ghost use Rattle.lio_rows_fields.specs.Escape.{byte_text, escaped};

use crate::fault::FieldFault;
use std::alloc::{AllocError, Global};

/// Appends how a byte is written.
fn push_escaped(text: &mut Vec<u8>, byte: u8) -> Result<(), AllocError>
    ensures { OnOk result (text.new.items ≡ text.old.items ++ byte_text byte) }
{
    match byte {
        b'\n' => text.extend_from_slice(b"~n"),
        b'\t' => text.extend_from_slice(b"~t"),
        b'~' => text.extend_from_slice(b"~7e"),
        _ => Ok(text.push(byte)?),
    }
}

/// How bytes are written.
pub fn escape(alloc: Global, bytes: &[u8]) -> Result<Vec<u8>, AllocError>
    ensures { IfOk result (λ text. text.items ≡ escaped bytes.now) }
{
    let mut text = Vec::new(alloc);
    for &byte in bytes {
        push_escaped(&mut text, byte)?;
    }
    Ok(text)
}

/// The value of a lower-case hexadecimal digit.
fn digit_value(digit: u8) -> Option<u8> {
    match digit {
        b'0'..=b'9' => Some(digit - b'0'),
        b'a'..=b'f' => Some(digit - b'a' + 10),
        _ => None,
    }
}

/// The byte of two hexadecimal digits.
fn byte_of_digits(high: u8, low: u8) -> Option<u8> {
    let value = u32::from(digit_value(high)?) * 16 + u32::from(digit_value(low)?);
    u8::try_from(value).ok()
}

/// The first byte that a text stands for, and the text after it.
fn split_first(text: &[u8]) -> Option<(u8, &[u8])>
    ensures shorter { IfSome result (λ parts. length parts.1.now < length text.now) }
{
    match text {
        [b'~', b'n', rest @ ..] => Some((b'\n', rest)),
        [b'~', b't', rest @ ..] => Some((b'\t', rest)),
        [b'~', high, low, rest @ ..] => Some((byte_of_digits(*high, *low)?, rest)),
        [] | [b'~', ..] => None,
        [byte, rest @ ..] => Some((*byte, rest)),
    }
}

/// The bytes that a text stands for, where each `~` in it begins one of the forms `~n`, `~t` and
/// `~` with two digits.
pub(crate) fn unescape(alloc: Global, text: &[u8]) -> Result<Vec<u8>, FieldFault> {
    let mut bytes = Vec::new(alloc);
    let mut rest = text;
    while !rest.is_empty() {
        let Some((byte, after)) = split_first(rest) else {
            return Err(FieldFault::Invalid);
        };
        bytes.push(byte)?;
        rest = after;
    }
    Ok(bytes)
}
