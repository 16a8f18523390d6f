//! The script as its file has it.

use lio_syntax_lines::{split_word, without_return};

/// A script's file: its name, and its text; no bytes where the text isn't there.
#[derive(Clone, Copy)]
pub struct Source<'s> {
    /// The name of the file.
    pub name: &'s str,
    /// Its text.
    pub text: &'s [u8],
}

/// A line of a text: its number, from 1, and its bytes without blanks at their ends.
#[derive(Clone, Copy)]
pub(crate) struct SourceLine<'s> {
    pub number: usize,
    pub bytes: &'s [u8],
}

/// A line without blanks in front and at its end, unless it says nothing: it has no words, or is a
/// comment.
fn said(line: &[u8]) -> Option<&[u8]> {
    let line = without_return(line).trim_ascii();
    match split_word(line) {
        Some(([b'#', ..], _)) | None => None,
        Some(_) => Some(line),
    }
}

impl<'s> Source<'s> {
    /// The line that stands at a place among those that say something, from 0.
    pub(crate) fn line(&self, place: usize) -> Option<SourceLine<'s>> {
        let mut left = place;
        for (before, line) in self.text.split(|byte| *byte == b'\n').enumerate() {
            let Some(bytes) = said(line) else {
                continue;
            };
            if left == 0 {
                return Some(SourceLine {
                    number: before.saturating_add(1),
                    bytes,
                });
            }
            left -= 1;
        }
        None
    }
}
