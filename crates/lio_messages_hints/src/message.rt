//! How messages are written.

use crate::bytes::Bytes;
use lio_clauses::NoMemory;
use std::alloc::Global;
use std::fmt;
use std::fmt::Write;

/// What stands in a message in the place of a `{}` of its template.
#[derive(Clone, Copy)]
pub enum Piece<'a> {
    /// Nothing.
    Nothing,
    /// Words as they are.
    Words(&'a str),
    /// Bytes in one line, each character that doesn't show by its number.
    Shown(&'a [u8]),
    /// A number.
    Number(u64),
}

/// A message that is written piece by piece; it remembers whether memory was refused.
#[derive(Drop)]
pub struct Message {
    text: String,
    is_refused: bool,
}

impl Message {
    /// Nothing is written yet.
    pub fn new(alloc: Global) -> Message {
        Message {
            text: String::new(alloc),
            is_refused: false,
        }
    }

    /// The same message.
    pub fn copy(&self, alloc: Global) -> Message {
        let mut message = Message::new(alloc);
        message.words(self.text.as_str());
        message.is_refused = message.is_refused || self.is_refused;
        message
    }

    /// Writes words.
    pub fn words(&mut self, words: &str) {
        if self.text.push_str(words).is_err() {
            self.is_refused = true;
        }
    }

    /// Writes a value as its type writes it.
    pub fn show<T: fmt::Display + Drop>(&mut self, value: T) {
        if write!(self.text, "{value}").is_err() {
            self.is_refused = true;
        }
    }

    /// Writes bytes as they are shown.
    pub fn bytes(&mut self, bytes: &[u8]) {
        self.show(Bytes(bytes));
    }

    /// Writes a number.
    pub fn number(&mut self, number: u64) {
        self.show(number);
    }

    /// Writes what stands in the place of a `{}`.
    fn piece(&mut self, piece: Piece<'_>) {
        match piece {
            Piece::Nothing => {}
            Piece::Words(words) => self.words(words),
            Piece::Shown(bytes) => self.bytes(bytes),
            Piece::Number(number) => self.number(number),
        }
    }

    /// Writes a template, with these pieces in the places of its `{}`, in their order.
    pub fn fill(&mut self, template: &str, first: Piece<'_>, second: Piece<'_>, third: Piece<'_>) {
        for (place, words) in template.split("{}").enumerate() {
            match place {
                0 => {}
                1 => self.piece(first),
                2 => self.piece(second),
                _ => self.piece(third),
            }
            self.words(words);
        }
    }

    /// How many bytes are written.
    pub fn len(&self) -> usize {
        self.text.len()
    }

    /// Notes that memory was refused for a piece.
    pub fn refuse(&mut self) {
        self.is_refused = true;
    }

    /// Gives what is written.
    pub fn finish(self) -> Result<String, NoMemory> {
        let Message { text, is_refused } = self;
        if is_refused {
            return Err(NoMemory);
        }
        Ok(text)
    }
}

/// A template with these pieces in the places of its `{}`, in their order.
pub fn filled(
    alloc: Global,
    template: &str,
    first: Piece<'_>,
    second: Piece<'_>,
    third: Piece<'_>,
) -> Result<String, NoMemory> {
    let mut message = Message::new(alloc);
    message.fill(template, first, second, third);
    message.finish()
}
