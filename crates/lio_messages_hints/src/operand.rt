//! What is wrong with names and values.
use crate::label_word::label_mistake;
use crate::message::Piece;
use crate::mistake::{Found, told, told_one, told_two};
use crate::number::number_mistake;
use crate::sign::inner_mistake;
use crate::text::text_mistake;
use crate::words::Word;
use lio_clauses::{Names, NoMemory, name_fault};
use lio_syntax_lines::{One, Two, is_name, read_literal, read_whole};
use std::alloc::Global;
use std::str;

/// The most bytes of a name.
const MOST_NAME: usize = 32;

/// What is told of parentheses among values.
pub const TWO_LINES: &str =
    "there are no parentheses; what needs two operators is written in two lines";

/// What is told of brackets with items in them.
pub(crate) const LIST: &str =
    "a list begins as [] and gets its items by push, each on a line of its own: let X = X push A";

/// What is told of braces where a value is wanted.
pub const MAPS: &str =
    "there are no maps and no records; a list begins as [] and gets its items by push";

/// What is wrong with a word that is to be a name.
pub fn name_mistake(alloc: Global, word: Word<'_>) -> Found {
    if is_name(word.text) {
        return Ok(None);
    }
    let shown = Piece::Shown(word.text);
    let Some(at) = name_fault(word.text) else {
        let template = "\"{}\" is a reserved word; take another name";
        return told_one(alloc, word.place, template, shown);
    };
    let (template, piece) = match word.text {
        text if is_value_like(text) => ("a name is wanted here, and {} is a value", shown),
        [b'0'..=b'9' | b'_', ..] => ("a name begins with a letter of a to z", shown),
        text if text.len() > MOST_NAME && at as usize >= MOST_NAME => {
            let len = Piece::Number(text.len() as u64);
            ("a name has at most 32 bytes; this one has {}", len)
        }
        text => return wrong_byte(alloc, word, text, at as usize),
    };
    told_one(alloc, word.place, template, piece)
}

/// Whether a word looks like a value and like no name.
pub fn is_value_like(word: &[u8]) -> bool {
    matches!(word, [b'"' | b'<', ..]) || read_whole(word).is_some()
}

/// A byte of a name that can't stand in it.
fn wrong_byte(alloc: Global, word: Word<'_>, text: &[u8], at: usize) -> Found {
    let shown = text.get(at..at.saturating_add(1)).unwrap_or(text);
    let template = match shown {
        [b'"' | b'\''] => {
            let text = "nothing stands before the quote of a text; \"A + B\" joins two texts";
            return told(alloc, word.place, text);
        }
        [b'A'..=b'Z'] => "names have no upper-case letters",
        [b'('] => {
            "there are no parentheses; what needs two operators is written in two lines, and \"call X P A ..\" calls a procedure"
        }
        [b'='] => "a blank stands before and behind \"=\"",
        [b','] => "words stand apart by blanks, without commas",
        [b';' | b':' | b'{' | b'}'] => "no \"{}\" ends a line or begins a block",
        _ => "\"{}\" can't stand in a name; letters, digits and \"_\" do",
    };
    told_one(alloc, word.inside(at), template, Piece::Shown(shown))
}

/// What is wrong with a word that is to be a name or a value.
pub fn operand_mistake(alloc: Global, names: &Names, word: Word<'_>) -> Found {
    if is_operand(alloc, names, word.text)? {
        return Ok(None);
    }
    if let Some(mistake) = constant_mistake(alloc, word)? {
        return Ok(Some(mistake));
    }
    if let Some(mistake) = last_sign_mistake(alloc, names, word)? {
        return Ok(Some(mistake));
    }
    if let Some(mistake) = sign_before_mistake(alloc, names, word)? {
        return Ok(Some(mistake));
    }
    let template = match word.text {
        [b'"', b'"', b'"', ..] => "a text has one quote at each end, and ends on its line",
        [b'"', ..] => return text_mistake(alloc, word),
        [b'\'' | b'`', ..] => "a text stands in double quotes",
        [b'<', ..] => return label_mistake(alloc, names, word),
        text if One::find(text).is_some() || Two::find(text).is_some() => {
            "the operator \"{}\" stands where a value is wanted"
        }
        [b'0'..=b'9' | b'-' | b'+', ..] => return number_mistake(alloc, names, word),
        [b'[', ..] | [b'v', b'e', b'c', b'!', b'[', ..] => LIST,
        [b'{', _, ..] => MAPS,
        [b'(', ..] => TWO_LINES,
        _ => {
            return match inner_mistake(alloc, names, b"X", word)? {
                Some(mistake) => Ok(Some(mistake)),
                None => name_mistake(alloc, word),
            };
        }
    };
    told_one(alloc, word.place, template, Piece::Shown(word.text))
}

/// A sign of other languages behind a name or a value that is right without it.
fn last_sign_mistake(alloc: Global, names: &Names, word: Word<'_>) -> Found {
    let [before @ .., sign @ (b';' | b',')] = word.text else {
        return Ok(None);
    };
    if !is_operand(alloc, names, before)? {
        return Ok(None);
    }
    let text = match sign {
        b';' => "no \";\" ends a line",
        _ => "words stand apart by blanks, without commas",
    };
    told(alloc, word.inside(before.len()), text)
}

/// A sign of other languages before a name or a value.
fn sign_before_mistake(alloc: Global, names: &Names, word: Word<'_>) -> Found {
    let [sign, value @ ..] = word.text else {
        return Ok(None);
    };
    if !matches!(*sign, b'!' | b'~' | b'$' | b'&' | b'*') {
        return Ok(None);
    }
    if *sign != b'$' && !is_operand(alloc, names, value)? {
        return Ok(None);
    }
    let template = match *sign {
        b'!' | b'~' => "write \"not {}\"",
        b'$' => "no \"$\" stands before a name",
        b'&' => "no \"&\" stands before a name",
        _ => "no \"*\" stands before a name; \"read X R\" reads a reference",
    };
    told_one(alloc, word.place, template, Piece::Shown(value))
}

/// Whether a word is a name or a value.
pub fn is_operand(alloc: Global, names: &Names, word: &[u8]) -> Result<bool, NoMemory> {
    Ok(is_name(word) || read_literal(alloc, names, word)?.is_some())
}

/// The flag or unit that was meant by a word of another language.
fn constant_meant(word: &[u8]) -> Option<&'static str> {
    match str::from_utf8(word).unwrap_or("") {
        "True" | "TRUE" => Some("true"),
        "False" | "FALSE" => Some("false"),
        "None" | "()" | "NULL" | "Unit" => Some("unit"),
        _ => None,
    }
}

/// A flag or unit of another language, or one with a sign behind it.
fn constant_mistake(alloc: Global, word: Word<'_>) -> Found {
    if let Some(constant) = constant_meant(word.text) {
        return told_one(alloc, word.place, "write \"{}\"", Piece::Words(constant));
    }
    let [before @ .., sign @ (b':' | b'{' | b';' | b',')] = word.text else {
        return Ok(None);
    };
    let Some(constant) = constant_meant(before) else {
        return Ok(None);
    };
    let signs = [*sign];
    told_two(
        alloc,
        word.place,
        "write \"{}\", and leave \"{}\" out",
        Piece::Words(constant),
        Piece::Shown(&signs),
    )
}
