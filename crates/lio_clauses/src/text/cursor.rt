//! A place in a text, from which its tokens are read one after another.
#![tactic(auto, unfolding(crate::specs::Token::front))]

ghost use Rattle.std.specs.Prelude.{◌≡◌, ◌≢◌, ◌+◌, ◌^◌, ◌<◌, ◌≤◌, ℕ, List, length, drop, slice_get};
ghost use Rattle.std.specs.Prelude.{Option, Some, None, OnOk, IfOk, IfErr, Ok, Err};
ghost use Rattle.std.specs.List.{prefix_len};
ghost use Rattle.lio_clauses.specs.declared.text.token.Token.TheVariants.{Principal};
ghost use Rattle.lio_clauses.specs.Names as name;
ghost use Rattle.lio_clauses.specs.Token as spec;
ghost use Rattle.lio_clauses.specs.Token.{name_at_front, tokens, tokens_of, place_of};

use super::token::Token;
use crate::faults::TextFault;
use crate::names::Names;

/// A place before a token of a text, or at its end. It is copied freely.
#[derive(Clone, Copy)]
pub(super) struct TokenCursor<'a> {
    names: &'a Names,
    next: Option<Token>,
    place: usize,
    /// What stands behind the next token, and the place of that.
    rest: &'a [u8],
    past: usize,
    ghost fits: { past + length rest.now < 2 ^ 64 },
    ghost known: { (n : ℕ) → next ≡ Some (Principal n) → n < 64 },
}

/// How many bytes at the front may stand in a name.
fn name_len(bytes: &[u8]) -> usize
    ensures run { result ≡ prefix_len name.is_name_byte bytes.now }
    ensures within { result ≤ length bytes.now }
{
    for (place, &byte) in bytes.iter().enumerate() {
        if !is_name_byte(byte) {
            return place;
        }
    }
    bytes.len()
}

/// Whether a byte is `a` to `z`, `0` to `9` or `_`.
fn is_name_byte(byte: u8) -> bool
    ensures { result ≡ name.is_name_byte byte }
{
    matches!(byte, b'a'..=b'z' | b'0'..=b'9' | b'_')
}

/// The token at the front of bytes that are not empty and do not begin with a blank, and how many
/// bytes it has.
fn front(names: &Names, bytes: &[u8]) -> (Token, usize)
    requires { 0 < length bytes.now }
    ensures token { result.0 ≡ (spec.front names.now bytes.now).token }
    ensures size { result.1 ≡ (spec.front names.now bytes.now).size }
    ensures some { 0 < result.1 }
    ensures within { result.1 ≤ length bytes.now }
    ensures known { (n : ℕ) → result.0 ≡ Token.Principal n → n < 64 }
{
    if bytes.starts_with(b"True") {
        (Token::Truth, 4)
    } else if bytes.starts_with(b"False") {
        (Token::Falsity, 5)
    } else if bytes.starts_with(b"(") {
        (Token::Open, 1)
    } else if bytes.starts_with(b")") {
        (Token::Close, 1)
    } else if bytes.starts_with(b"/\\") {
        (Token::And, 2)
    } else if bytes.starts_with(b"\\/") {
        (Token::Or, 2)
    } else if bytes.starts_with(b"%%") {
        (Token::Over, 2)
    } else {
        name_or_stray(names, bytes)
    }
}

/// The name at the front of bytes, or the byte there, which begins no token.
fn name_or_stray(names: &Names, bytes: &[u8]) -> (Token, usize)
    requires { 0 < length bytes.now }
    ensures token { result.0 ≡ (name_at_front names.now bytes.now).token }
    ensures size { result.1 ≡ (name_at_front names.now bytes.now).size }
    ensures some { 0 < result.1 }
    ensures within { result.1 ≤ length bytes.now }
    ensures known { (n : ℕ) → result.0 ≡ Token.Principal n → n < 64 }
{
    if !bytes[0].is_ascii_lowercase() {
        return (Token::Stray, 1);
    }
    let size = name_len(bytes);
    match names.find(&bytes[..size]) {
        Some(number) => (Token::Principal(number), size),
        None => (Token::Stranger, size),
    }
}

/// The bytes past the blanks at the front, and their place.
fn past_blanks(bytes: &[u8], place: usize) -> (&[u8], usize)
    requires { place + length bytes.now < 2 ^ 64 }
    ensures same { (names : List (List ℕ))
        → tokens names result.1 0 result.0.now ≡ tokens names place 0 bytes.entry.now }
    ensures at_token { slice_get result.0.now 0 ≢ Some 32 }
    ensures fits { result.1 + length result.0.now < 2 ^ 64 }
{
    let mut rest = bytes;
    let mut at = place;
    while let [b' ', more @ ..] = rest {
        rest = more;
        at += 1;
    }
    (rest, at)
}

impl<'a> TokenCursor<'a> {
    ghost use Rattle.lio_clauses.specs.Token.{after};
    ghost use Rattle.lio_clauses.specs.FormulaText.{shown, expected, ended};
    ghost use Rattle.lio_clauses.specs.Cursor.{left};
    ghost use Rattle.std.specs.Option.{option_map};

    /// The cursor before the first token of a text over the names of principals.
    pub(super) fn new(names: &'a Names, text: &'a [u8]) -> TokenCursor<'a>
        ensures { left result ≡ tokens_of names.now text.now }
    {
        TokenCursor::at(names, text, 0)
    }

    /// The cursor before the first token of what stands from a place on.
    fn at(names: &'a Names, bytes: &'a [u8], place: usize) -> TokenCursor<'a>
        requires { place + length bytes.now < 2 ^ 64 }
        ensures { left result ≡ tokens names.now place 0 bytes.now }
    {
        let (bytes, place) = past_blanks(bytes, place);
        if bytes.is_empty() {
            return TokenCursor {
                names,
                next: None,
                place,
                rest: bytes,
                past: place,
            };
        }
        let (token, size) = front(names, bytes);
        TokenCursor {
            names,
            next: Some(token),
            place,
            rest: &bytes[size..],
            past: place + size,
        }
    }

    /// The next token, if there is one.
    pub(super) fn next(&self) -> Option<Token>
        ensures { result ≡ self.now.next }
    {
        self.next
    }

    /// The cursor behind the next token.
    pub(super) fn behind(&self) -> TokenCursor<'a>
        ensures { left result ≡ tokens self.now.names.now self.now.past 0 self.now.rest.now }
    {
        TokenCursor::at(self.names, self.rest, self.past)
    }

    /// The cursor behind the given token, if that is the next one.
    pub(super) fn after(&self, token: Token) -> Option<TokenCursor<'a>>
        ensures { option_map left result ≡ after token (left self.now) }
    {
        match self.next {
            Some(next) if next == token => Some(self.behind()),
            _ => None,
        }
    }

    /// The cursor behind the given token, which has to be next.
    pub(super) fn expect(&self, token: Token) -> Result<TokenCursor<'a>, TextFault>
        ensures ok { IfOk result (λ rest. expected token (left self.now) ≡ Ok (left rest)) }
        ensures fault { IfErr result (λ fault. expected token (left self.now) ≡ Err fault) }
    {
        match self.after(token) {
            Some(rest) => Ok(rest),
            None => Err(self.misplaced()),
        }
    }

    /// Tests that nothing is left.
    pub(super) fn end(&self) -> Result<(), TextFault>
        ensures ok { OnOk result (ended (left self.now) ≡ Ok (left self.now)) }
        ensures fault { IfErr result (λ fault. ended (left self.now) ≡ Err fault) }
    {
        match self.next {
            None => Ok(()),
            Some(_) => Err(self.misplaced()),
        }
    }

    /// The place of the next token, or of the end, at most 4,294,967,295.
    pub(super) fn place(&self) -> u32
        ensures { result ≡ shown (place_of (left self.now)) }
    {
        self.place.min(u32::MAX as usize) as u32
    }

    /// The fault that the next token may not stand where it does, or that the text ends too early.
    pub(super) fn misplaced(&self) -> TextFault
        ensures { result ≡ TextFault.BadText (shown (place_of (left self.now))) }
    {
        TextFault::BadText(self.place())
    }
}
