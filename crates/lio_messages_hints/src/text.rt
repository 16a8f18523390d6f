//! What is wrong with a text in quotes.
use crate::message::Piece;
use crate::mistake::{Found, told, told_one};
use crate::words::Word;
use std::alloc::Global;

/// Where a byte of a text stands.
#[derive(Clone, Copy)]
enum Inside {
    /// In the text itself.
    Plain,
    /// Behind a backslash.
    Escape,
    /// Behind `\x`.
    High,
    /// Behind `\x` and a digit.
    Low,
}

/// Whether a byte is a digit of an escape.
fn is_hex(byte: u8) -> bool {
    byte.is_ascii_digit() || (b'a'..=b'f').contains(&byte)
}

/// What is wrong with a word that begins with a quote.
pub(crate) fn text_mistake(alloc: Global, word: Word<'_>) -> Found {
    let mut inside = Inside::Plain;
    let mut escape = 0;
    for (i, &byte) in word.text.iter().enumerate().skip(1) {
        inside = match (inside, byte) {
            (Inside::Plain, b'"') => return behind_quote(alloc, word, i),
            (Inside::Plain, b'\\') => {
                escape = i;
                Inside::Escape
            }
            (Inside::Plain, b'\t') => {
                return told(alloc, word.inside(i), "in a text a tab is written \\x09");
            }
            (Inside::Plain, _) => Inside::Plain,
            (Inside::Escape, b'"' | b'\\' | b'n') => Inside::Plain,
            (Inside::Escape, b'x') => Inside::High,
            (Inside::High, _) if is_hex(byte) => Inside::Low,
            (Inside::Low, _) if is_hex(byte) => Inside::Plain,
            (Inside::Escape, _) => return no_escape(alloc, word, escape, i),
            (Inside::High, _) | (Inside::Low, _) => return no_digit(alloc, word, escape),
        };
    }
    told(
        alloc,
        word.place,
        "the text that begins here has no closing quote",
    )
}

/// What stands behind the closing quote, at a place of the word.
fn behind_quote(alloc: Global, word: Word<'_>, quote: usize) -> Found {
    let behind = quote.saturating_add(1);
    if behind >= word.text.len() {
        return Ok(None);
    }
    let text = match word.text.get(behind..) {
        Some([b')']) => "there are no parentheses",
        Some([b')', b';']) => "there are no parentheses, and no \";\" ends a line",
        _ => {
            "the text ends before this; a quote in a text is written \\\", and a blank stands behind a text"
        }
    };
    told(alloc, word.inside(behind), text)
}

/// An escape that isn't there.
fn no_escape(alloc: Global, word: Word<'_>, escape: usize, last: usize) -> Found {
    let shown = word
        .text
        .get(escape..last.saturating_add(1))
        .unwrap_or(b"\\");
    let template = "\"{}\" is no escape; there are \\\" \\\\ \\n and \\xhh";
    told_one(alloc, word.inside(escape), template, Piece::Shown(shown))
}

/// An escape without its two digits.
fn no_digit(alloc: Global, word: Word<'_>, escape: usize) -> Found {
    let text = "two digits of 0 to 9 and a to f stand behind \\x";
    told(alloc, word.inside(escape), text)
}
