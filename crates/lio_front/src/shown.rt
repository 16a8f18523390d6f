//! Names as they are shown.

use lio_values::Text;
use std::{fmt, str};

/// A name as it is shown: in one line, with its control characters escaped.
#[derive(Clone, Copy)]
pub struct Shown<'a>(pub &'a Text);

impl fmt::Display for Shown<'_> {
    fn fmt<W: fmt::Write>(&self, f: &mut fmt::Formatter<W>) -> fmt::Result {
        for character in str::from_utf8(self.0.bytes()).unwrap_or("a file").chars() {
            match character {
                '\n' => f.write_str("\\n")?,
                '\u{0}'..='\u{1f}' | '\u{7f}'..='\u{9f}' => {
                    let code = character as u32;
                    write!(f, "\\x{code:02x}")?;
                }
                _ => f.write_char(character)?,
            }
        }
        Ok(())
    }
}
