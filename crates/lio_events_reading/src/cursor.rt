//! What is left of a line, and the words at its front.
#![tactic(auto, unfolding(crate::specs::Cut::quoted_len))]

ghost use Rattle.std.specs.Prelude.{◌≡◌, ◌≤◌, true, length};
ghost use Rattle.std.specs.List.{prefix_len};
ghost use Rattle.lio_events_reading.specs.Reading as spec;
ghost use Rattle.lio_events_reading.specs.Cut.{is_inside, quoted_len};

use std::marker::Model;

/// What is left of a line, seen as its bytes.
#[derive(Drop)]
pub(crate) struct Cursor<'a> {
    rest: &'a [u8],
}

impl<'a> Model for Cursor<'a> {
    ghost use Rattle.std.specs.Prelude.{List, ℕ};

    ghost Value = { List ℕ };

    ghost view = { λ cursor. cursor.rest.now };
}

/// Whether a byte may stand in a word.
fn is_word_byte(byte: u8) -> bool
    ensures { result ≡ spec.is_word_byte byte }
{
    matches!(byte, b'a'..=b'z' | b'0'..=b'9' | b'_' | b'-')
}

/// How many bytes at the front may stand in a word.
fn word_len(bytes: &[u8]) -> usize
    ensures len { result ≡ prefix_len spec.is_word_byte bytes.now }
    ensures within { result ≤ length bytes.now }
{
    for (place, &byte) in bytes.iter().enumerate() {
        if !is_word_byte(byte) {
            return place;
        }
    }
    bytes.len()
}

/// How many bytes stand before the first `>`.
fn inside_len(bytes: &[u8]) -> usize
    ensures len { result ≡ prefix_len is_inside bytes.now }
    ensures within { result ≤ length bytes.now }
{
    for (place, &byte) in bytes.iter().enumerate() {
        if byte == b'>' {
            return place;
        }
    }
    bytes.len()
}

/// How many bytes there are up to the quote that ends a text: not the first byte, and none behind a
/// backslash that begins an escape.
fn quoted_len(bytes: &[u8]) -> usize
    ensures len { result ≡ quoted_len true bytes.now }
    ensures within { result ≤ length bytes.now }
{
    let mut escaped = true;
    for (place, &byte) in bytes.iter().enumerate() {
        if byte == b'"' && !escaped {
            return place + 1;
        }
        escaped = byte == b'\\' && !escaped;
    }
    bytes.len()
}

impl<'a> Cursor<'a> {
    ghost use Rattle.std.specs.Prelude.{◌≡◌, ◌≤◌, ◌+◌, ◌++◌, ℕ, List, take, drop, length, codes};
    ghost use Rattle.std.specs.Prelude.{IsTrue};
    ghost use Rattle.std.specs.List.{list_all, prefix_len};
    ghost use Rattle.lio_values.specs.Quoted.{quoted};
    ghost use Rattle.lio_syntax_lines.specs.Literals.{is_byte};
    ghost use Rattle.lio_events_reading.specs.Reading.{Ends, Finds};
    ghost use Rattle.lio_events_reading.specs.Cut.{is_inside, bracketed, IsWord, IsInside};
    ghost use Rattle.lio_events_reading.specs.Cut.{AreBytes};

    /// All of a line.
    pub(crate) fn new(line: &'a [u8]) -> Cursor<'a>
        ensures { result ≡ line.now }
    {
        Cursor { rest: line }
    }

    /// The bytes that are left.
    pub(crate) fn rest(&self) -> &'a [u8]
        ensures { result.now ≡ self.now }
    {
        self.rest
    }

    /// Takes so many bytes, or all where there are fewer.
    fn take(&mut self, count: usize) -> &'a [u8]
        ensures taken { result.now ≡ take count self.old }
        ensures left { self.new ≡ drop count self.old }
        ensures shorter { length self.new ≤ length self.old }
    {
        let count = count.min(self.rest.len());
        let (front, behind) = self.rest.split_at(count);
        self.rest = behind;
        front
    }

    /// Goes past so many bytes, or to the end where there are fewer.
    pub(crate) fn skip(&mut self, count: usize)
        ensures left { self.new ≡ drop count self.old }
        ensures shorter { length self.new ≤ length self.old }
    {
        self.take(count);
    }

    /// Takes the word at the front.
    pub(crate) fn word(&mut self) -> &'a [u8]
        ensures finds { Finds (λ word. word) IsWord self.old result.now self.new }
        ensures shorter { length self.new ≤ length self.old }
    {
        self.take(word_len(self.rest()))
    }

    /// Takes what stands between `<` and `>`, with them.
    pub(crate) fn bracketed(&mut self) -> &'a [u8]
        ensures finds { Finds bracketed IsInside self.old result.now self.new }
        ensures shorter { length self.new ≤ length self.old }
    {
        self.skip(1);
        let inside = self.take(inside_len(self.rest()));
        self.skip(1);
        inside
    }

    /// Takes a text in quotes, with them.
    pub(crate) fn quoted(&mut self) -> &'a [u8]
        ensures finds { (text rest : List ℕ) → AreBytes text → self.old ≡ quoted text ++ rest
            → (result.now ≡ quoted text) × (self.new ≡ rest) }
        ensures shorter { length self.new ≤ length self.old }
    {
        self.take(quoted_len(self.rest()))
    }
}
