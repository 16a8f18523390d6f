//! Bytes of a script as they are shown.

use std::{fmt, str};

/// Bytes as they are shown: in one line, at most 160 of them, with each character that doesn't show
/// written by its number.
#[derive(Clone, Copy)]
pub struct Bytes<'a>(pub &'a [u8]);

/// The most bytes that are shown.
const MOST: usize = 160;

/// Writes a character, by its number where it doesn't show.
fn write_shown<W: fmt::Write>(f: &mut fmt::Formatter<W>, character: char) -> fmt::Result {
    if ('\u{20}'..='\u{7e}').contains(&character) {
        return f.write_char(character);
    }
    let code = character as u32;
    if code < 0x80 {
        write!(f, "\\x{code:02x}")
    } else {
        write!(f, "\\u{{{code:x}}}")
    }
}

/// Writes a byte, by its number where it doesn't show.
fn write_byte<W: fmt::Write>(f: &mut fmt::Formatter<W>, byte: u8) -> fmt::Result {
    if (0x20..=0x7e).contains(&byte) {
        f.write_char(byte as char)
    } else {
        write!(f, "\\x{byte:02x}")
    }
}

impl fmt::Display for Bytes<'_> {
    fn fmt<W: fmt::Write>(&self, f: &mut fmt::Formatter<W>) -> fmt::Result {
        let bytes = self.0;
        let shown = bytes.get(..MOST).unwrap_or(bytes);
        match str::from_utf8(shown) {
            Ok(text) => {
                for character in text.chars() {
                    write_shown(f, character)?;
                }
            }
            Err(_) => {
                for byte in shown {
                    write_byte(f, *byte)?;
                }
            }
        }
        if shown.len() < bytes.len() {
            f.write_str("..")?;
        }
        Ok(())
    }
}
