//! The words of a line, each with its place.

use crate::message::Message;
use lio_clauses::NoMemory;
use lio_syntax_lines::split_word;
use std::alloc::Global;

/// A word of a line.
#[derive(Clone, Copy)]
pub struct Word<'l> {
    /// Its place in the line, in bytes, from 0.
    pub place: usize,
    /// Its bytes.
    pub text: &'l [u8],
}

impl Word<'_> {
    /// The place in the line of what stands so many bytes behind its beginning.
    pub fn inside(self, bytes: usize) -> usize {
        self.place.saturating_add(bytes)
    }

    /// Whether it is this word.
    pub fn is(self, word: &str) -> bool {
        self.text == word.as_bytes()
    }
}

/// The words of a line.
pub fn words_of(alloc: Global, line: &[u8]) -> Result<Vec<Word<'_>>, NoMemory> {
    let mut words = Vec::new(alloc);
    let mut rest = line;
    // A line has no more words than bytes.
    for _byte in line {
        let Some((text, behind)) = split_word(rest) else {
            return Ok(words);
        };
        let place = line.len().saturating_sub(behind.len() + text.len());
        words.push(Word { place, text })?;
        rest = behind;
    }
    Ok(words)
}

/// The place of the first such byte, if there is one.
pub fn place_of_byte(bytes: &[u8], wanted: u8) -> Option<usize> {
    for (at, byte) in bytes.iter().enumerate() {
        if *byte == wanted {
            return Some(at);
        }
    }
    None
}

/// Writes words behind a message, a blank before each.
pub fn append_words(message: &mut Message, words: &[Word<'_>]) {
    for word in words {
        message.words(" ");
        message.bytes(word.text);
    }
}

/// The first word behind others, and before a place of the line, with which a comment begins.
pub fn comment_before<'l>(words: &[Word<'l>], place: usize) -> Option<Word<'l>> {
    for word in words.iter().skip(1) {
        if word.place < place && word.text.starts_with(b"#") {
            return Some(*word);
        }
    }
    None
}
