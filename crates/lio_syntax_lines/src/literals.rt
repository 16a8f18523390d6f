//! Names and literals.
#![tactic(auto, unfolding(crate::specs::Literals::is_name, crate::specs::Literals::unquoted))]

ghost use Rattle.std.specs.Prelude.{◌≡◌, ◌≢◌, ◌≤◌, ◌<◌, ℕ, List, [], ◌∷◌, ◌++◌, length, Some, None};
ghost use Rattle.std.specs.Prelude.{IsTrue, IfOk, IfSome, MatchOption};
ghost use Rattle.std.specs.List.{list_all};
ghost use Rattle.std.specs.Option.{option_map};
ghost use Rattle.lio_labels.specs.IsLabel.{IsLabel};
ghost use Rattle.lio_labels.specs.LabelPrint.{AreNamed};
ghost use Rattle.lio_syntax_lines.specs.Literals as spec;
ghost use Rattle.lio_syntax_lines.specs.Literals.{constant_of, number_from, digits_of, whole_of};
ghost use Rattle.lio_syntax_lines.specs.Literals.{put_before, both_digits, escape_of, text_of};
ghost use Rattle.lio_syntax_lines.specs.Literals.{label_of};
ghost use Rattle.lio_syntax_lines.specs.Literals.{literal_of, at_end, IsLiteral};

use crate::keyword::Keyword;
use crate::operators::{One, Two};
use lio_clauses::{Names, NoMemory, TextFault, name_fault};
use lio_labels::Label;
use lio_labels::laws::label_is_canonical;
use lio_values::{Items, Plain, Text};
use std::alloc::Global;

/// The flag or unit that a word is.
#[tactic(auto, unfolding(crate::specs::Literals::constant_of))]
fn constant(word: &[u8]) -> Option<Plain>
    ensures value { result ≡ constant_of word.now }
    ensures literal { (names : List (List ℕ)) → IfSome result (IsLiteral names) }
{
    if word == b"true".as_slice() {
        Some(Plain::Flag(true))
    } else if word == b"false".as_slice() {
        Some(Plain::Flag(false))
    } else if word == b"unit".as_slice() {
        Some(Plain::Unit)
    } else {
        None
    }
}

/// Whether a word is reserved.
#[tactic(auto, unfolding(crate::specs::Literals::is_reserved))]
fn is_reserved(word: &[u8]) -> bool
    ensures { result ≡ spec.is_reserved word.now }
{
    Keyword::find(word).is_some()
        || One::find(word).is_some()
        || matches!(Two::find(word), Some(op) if op.is_reserved())
        || constant(word).is_some()
}

/// Whether a word is a name.
pub fn is_name(word: &[u8]) -> bool
    ensures { result ≡ spec.is_name word.now }
{
    name_fault(word).is_none() && !is_reserved(word)
}

/// Whether a byte is a decimal digit.
fn is_digit(byte: u8) -> bool
    ensures { result ≡ spec.is_digit byte }
{
    byte.is_ascii_digit()
}

/// Whether each byte is a decimal digit.
fn are_digits(bytes: &[u8]) -> bool
    ensures { result ≡ list_all spec.is_digit bytes.now }
{
    bytes.iter().all(|byte| is_digit(*byte))
}

/// The number of at most 19 decimal digits.
fn number_of(digits: &[u8]) -> u64
    requires few { length digits.now ≤ 19 }
    requires digits { IsTrue (list_all spec.is_digit digits.now) }
    ensures { result ≡ number_from 0 digits.now }
{
    let mut number = 0;
    for digit in digits {
        number = number * 10 + u64::from(*digit - b'0');
    }
    number
}

/// The number of 1 to 19 decimal digits.
#[tactic(auto, unfolding(crate::specs::Literals::digits_of))]
fn read_digits(digits: &[u8]) -> Option<u64>
    ensures { result ≡ digits_of digits.now }
{
    if !digits.is_empty() && digits.len() <= 19 && are_digits(digits) {
        Some(number_of(digits))
    } else {
        None
    }
}

/// The number, where it has 64 bits with sign.
fn positive(number: u64) -> Option<i64>
    ensures { result ≡ spec.positive number }
{
    if number <= 0x7fff_ffff_ffff_ffff {
        Some(number as i64)
    } else {
        None
    }
}

/// The negative of the number, where it has 64 bits with sign.
fn negative(number: u64) -> Option<i64>
    ensures { result ≡ spec.negative number }
{
    if number <= 0x7fff_ffff_ffff_ffff {
        Some(-(number as i64))
    } else if number == 0x8000_0000_0000_0000 {
        Some(i64::MIN)
    } else {
        None
    }
}

/// The whole that a word is.
pub fn read_whole(word: &[u8]) -> Option<i64>
    ensures { result ≡ whole_of word.now }
{
    match word {
        [] => None,
        [b'-', digits @ ..] => negative(read_digits(digits)?),
        _ => positive(read_digits(word)?),
    }
}

/// The value of a lower-case hexadecimal digit.
fn hex_value(digit: u8) -> Option<u8>
    ensures value { result ≡ spec.hex_value digit }
    ensures small { IfSome result (λ value. value < 16) }
{
    match digit {
        b'0'..=b'9' => Some(digit - b'0'),
        b'a'..=b'f' => Some(digit - b'a' + 10),
        _ => None,
    }
}

/// The byte of two hexadecimal digits.
fn byte_of(high: u8, low: u8) -> Option<u8>
    ensures { result ≡ both_digits (spec.hex_value high) (spec.hex_value low) }
{
    let high = hex_value(high)?;
    let low = hex_value(low)?;
    Some(high * 16 + low)
}

/// The byte that a sign behind a backslash stands for.
fn escape_of(sign: u8) -> Option<u8>
    ensures { result ≡ escape_of sign }
{
    match sign {
        b'"' | b'\\' => Some(sign),
        b'n' => Some(b'\n'),
        _ => None,
    }
}

/// The byte of an escape, whose backslash stands before these bytes, and what stands behind it.
fn split_escape(bytes: &[u8]) -> Option<(u8, &[u8])>
    ensures { MatchOption result (spec.escaped bytes.now ≡ None)
        (λ parts. (spec.escaped bytes.now ≡ put_before (Some parts.0) (spec.unquoted parts.1.now))
        × (length parts.1.now < length bytes.now)) }
{
    match bytes {
        [b'x', high, low, rest @ ..] => Some((byte_of(*high, *low)?, rest)),
        [sign, rest @ ..] => Some((escape_of(*sign)?, rest)),
        [] => None,
    }
}

/// The first byte of a text whose last quote isn't first here, and what stands behind it.
fn split_byte(bytes: &[u8]) -> Option<(u8, &[u8])>
    requires { (rest : List ℕ) → bytes.now ≢ 34 ∷ rest }
    ensures { MatchOption result (spec.unquoted bytes.now ≡ None)
        (λ parts. (spec.unquoted bytes.now ≡ put_before (Some parts.0) (spec.unquoted parts.1.now))
        × (length parts.1.now < length bytes.now)) }
{
    match bytes {
        [b'\\', rest @ ..] => split_escape(rest),
        [byte @ 0x20..=0x7e, rest @ ..] => Some((*byte, rest)),
        _ => None,
    }
}

/// The text, where nothing stands behind its last quote.
fn closed(alloc: Global, text: Vec<u8>, behind: &[u8]) -> Result<Option<Text>, NoMemory>
    ensures { IfOk result
        (λ whole. whole ≡ option_map (λ more. text.items ++ more) (at_end behind.now)) }
{
    if behind.is_empty() {
        Ok(Some(Text::of_vec(alloc, text)?))
    } else {
        Ok(None)
    }
}

/// The bytes of what stands behind the first quote of a text.
fn unquoted(alloc: Global, bytes: &[u8]) -> Result<Option<Text>, NoMemory>
    ensures { IfOk result (λ text. text ≡ spec.unquoted bytes.now) }
{
    let mut text = Vec::new(alloc);
    let mut rest = bytes;
    while let [byte, behind @ ..] = rest {
        if *byte == b'"' {
            return closed(alloc, text, behind);
        }
        let Some((byte, behind)) = split_byte(rest) else {
            return Ok(None);
        };
        text.push(byte)?;
        rest = behind;
    }
    Ok(None)
}

/// The bytes of a text in quotes.
fn read_text(alloc: Global, word: &[u8]) -> Result<Option<Text>, NoMemory>
    ensures { IfOk result (λ text. text ≡ text_of word.now) }
{
    match word {
        [b'"', rest @ ..] => unquoted(alloc, rest),
        _ => Ok(None),
    }
}

/// What stands between `<` and `>`.
#[tactic(auto, unfolding(crate::specs::Literals::bracketed))]
fn bracketed(word: &[u8]) -> Option<&[u8]>
    ensures { MatchOption result (spec.bracketed word.now ≡ None)
        (λ text. spec.bracketed word.now ≡ Some text.now) }
{
    word.strip_prefix(b"<")?.strip_suffix(b">")
}

/// The label in brackets.
fn read_label(alloc: Global, names: &Names, word: &[u8]) -> Result<Option<Label>, NoMemory>
    ensures ok { IfOk result (λ label. label ≡ label_of names.now word.now) }
    ensures named { IfOk result (λ label. IfSome label (λ l. AreNamed names.now l × IsLabel l)) }
{
    let Some(text) = bracketed(word) else {
        return Ok(None);
    };
    match Label::read(alloc, text, names) {
        Ok(label) => {
            label_is_canonical(&label);
            Ok(Some(label))
        }
        Err(TextFault::NoMemory) => Err(NoMemory),
        Err(_) => Ok(None),
    }
}

/// The flag, unit, whole, text, label or empty list that a word is.
#[tactic(auto, unfolding(crate::specs::Literals::literal_of))]
pub fn read_literal(alloc: Global, names: &Names, word: &[u8]) -> Result<Option<Plain>, NoMemory>
    ensures ok { IfOk result (λ plain. plain ≡ literal_of names.now word.now) }
    ensures literal { IfOk result (λ plain. IfSome plain (IsLiteral names.now)) }
{
    if let Some(plain) = constant(word) {
        return Ok(Some(plain));
    }
    if let Some(number) = read_whole(word) {
        return Ok(Some(Plain::Whole(number)));
    }
    if let Some(text) = read_text(alloc, word)? {
        return Ok(Some(Plain::Bytes(text)));
    }
    if let Some(label) = read_label(alloc, names, word)? {
        return Ok(Some(Plain::Lab(label)));
    }
    if word == b"[]".as_slice() {
        return Ok(Some(Plain::Items(Items::new(alloc))));
    }
    Ok(None)
}
