//! Names of files as a text has them.

use lio_values::Text;
use std::{fmt, str};

/// A file's name: bare where its signs are plain, else in quotes, so that it can't look like what
/// stands around it.
#[derive(Clone, Copy)]
pub(crate) struct ShownFile<'a>(pub &'a Text);

/// Whether each sign of a name stands for itself wherever it is written.
fn is_plain(name: &str) -> bool {
    for character in name.chars() {
        match character {
            'a'..='z' | 'A'..='Z' | '0'..='9' | '.' | '_' | '-' | '/' => {}
            _ => return false,
        }
    }
    true
}

/// Writes a sign of a name in quotes: what isn't ASCII, and doesn't show, by its number.
fn write_quoted<W: fmt::Write>(f: &mut fmt::Formatter<W>, character: char) -> fmt::Result {
    match character {
        '"' => f.write_str("\\\""),
        '\\' => f.write_str("\\\\"),
        ' '..='~' => f.write_char(character),
        _ => {
            let code = character as u32;
            write!(f, "\\u{{{code:x}}}")
        }
    }
}

impl fmt::Display for ShownFile<'_> {
    fn fmt<W: fmt::Write>(&self, f: &mut fmt::Formatter<W>) -> fmt::Result {
        let name = str::from_utf8(self.0.bytes()).unwrap_or("a file");
        if is_plain(name) {
            return f.write_str(name);
        }
        f.write_char('"')?;
        for character in name.chars() {
            write_quoted(f, character)?;
        }
        f.write_char('"')
    }
}
