//! The walk over a text that is to be JSON, up to its first mistake.

use crate::json::number::number_end;
use crate::json::place::{before_blanks, behind_blanks, byte_at, last_byte, position_of};
use crate::json::text::text_end;
use crate::json::wrong::{Wrong, wrong_at, wrong_byte};
use lio_clauses::NoMemory;
use lio_messages_hints::Piece;
use serde_json::Value;
use std::alloc::Global;

/// How deep brackets and braces nest at most.
const MOST_DEEP: usize = 127;

/// What may come next.
#[derive(Clone, Copy, PartialEq, Eq)]
enum Wants {
    Value,
    ValueOrEnd,
    Key,
    KeyOrEnd,
    Colon,
    CommaOrEnd,
}

/// What may come behind a part of the text, and the place at which that part ends.
type Next<'t> = Result<(Wants, usize), Wrong<'t>>;

/// Words of other languages for true, false and null.
const CONSTANTS: [&str; 13] = [
    "True",
    "TRUE",
    "False",
    "FALSE",
    "None",
    "Null",
    "NULL",
    "nil",
    "undefined",
    "yes",
    "no",
    "on",
    "off",
];

/// The bytes of a text, and the places of the brackets and braces that are open.
#[derive(Drop)]
struct Walk<'t> {
    bytes: &'t [u8],
    open: Vec<usize>,
}

impl<'t> Walk<'t> {
    /// The innermost bracket or brace that is open, and its place.
    fn innermost(&self) -> Option<(u8, usize)> {
        let place = *self.open.last()?;
        Some((byte_at(self.bytes, place), place))
    }

    /// The word of letters and digits that begins at a place.
    fn word_at(&self, at: usize) -> &'t [u8] {
        let rest = self.bytes.get(at..).unwrap_or(b"");
        for (length, byte) in rest.iter().enumerate() {
            if !byte.is_ascii_alphanumeric() {
                return rest.get(..length).unwrap_or(rest);
            }
        }
        rest
    }

    /// What is wrong where a value is wanted.
    fn no_value(&self, at: usize) -> Wrong<'t> {
        let before = last_byte(self.bytes, at);
        let template = match byte_at(self.bytes, at) {
            b'\'' => "JSON has double quotes",
            _ if self.open.is_empty() => "a policy is JSON, one object from \"{\" to \"}\"",
            b']' | b'}' if before == b',' => {
                "a value is wanted before \"{}\"; no comma stands behind the last"
            }
            b']' | b'}' | b',' | b':' => "a value is missing before \"{}\"",
            b'+' => "no \"+\" stands in front of a number",
            b'.' => "a digit is missing before \".\"",
            b'a'..=b'z' | b'A'..=b'Z' | b'_' => self.no_word(at),
            _ => "a value is wanted here, not \"{}\"",
        };
        wrong_byte(self.bytes, at, template)
    }

    /// What is told of a word where a value is wanted.
    fn no_word(&self, at: usize) -> &'static str {
        let word = self.word_at(at);
        for constant in CONSTANTS {
            if constant.as_bytes() == word {
                return "JSON has true, false and null, in lower case";
            }
        }
        "a value is wanted here; a text stands in double quotes"
    }

    /// Goes into a bracket or a brace.
    fn enter(&mut self, at: usize, wants: Wants) -> Result<Next<'t>, NoMemory> {
        if self.open.len() >= MOST_DEEP {
            let template = "brackets and braces nest at most 127 deep";
            return Ok(Err(wrong_at(at, template)));
        }
        self.open.push(at)?;
        Ok(Ok((wants, at.saturating_add(1))))
    }

    /// Goes out of the innermost bracket or brace.
    fn leave(&mut self, at: usize) -> Next<'t> {
        self.open.pop();
        Ok((Wants::CommaOrEnd, at.saturating_add(1)))
    }

    /// Goes past a number.
    fn number(&self, alloc: Global, at: usize) -> Result<Next<'t>, NoMemory> {
        let end = match number_end(self.bytes, at) {
            Ok(end) => end,
            Err(found) => return Ok(Err(found)),
        };
        let number = self.bytes.get(at..end).unwrap_or(b"0");
        match Value::from_slice(alloc, number) {
            Ok(_) => Ok(Ok((Wants::CommaOrEnd, end))),
            Err(refused) if refused.is_memory() => Err(NoMemory),
            Err(_) => {
                let template = "this number is past the greatest of 64-bit floating point";
                Ok(Err(wrong_at(at, template)))
            }
        }
    }

    /// Goes past a text in quotes.
    fn text(&self, at: usize, wants: Wants) -> Next<'t> {
        match text_end(self.bytes, at) {
            Ok(end) => Ok((wants, end)),
            Err(found) => Err(found),
        }
    }

    /// Goes past a value, or into it.
    fn value(&mut self, alloc: Global, at: usize) -> Result<Next<'t>, NoMemory> {
        match byte_at(self.bytes, at) {
            b'"' => Ok(self.text(at, Wants::CommaOrEnd)),
            b'{' => self.enter(at, Wants::KeyOrEnd),
            b'[' => self.enter(at, Wants::ValueOrEnd),
            b'-' | b'0'..=b'9' => self.number(alloc, at),
            _ => {
                let word = self.word_at(at);
                Ok(match word {
                    b"true" | b"false" | b"null" => {
                        Ok((Wants::CommaOrEnd, at.saturating_add(word.len())))
                    }
                    _ => Err(self.no_value(at)),
                })
            }
        }
    }

    /// What is wrong where a key is wanted.
    fn no_key(&self, at: usize) -> Wrong<'t> {
        let template = match byte_at(self.bytes, at) {
            b'\'' => "JSON has double quotes",
            b'}' => "a value is wanted before \"}\"; no comma stands behind the last",
            b'a'..=b'z' | b'A'..=b'Z' | b'0'..=b'9' | b'_' => "a key stands in double quotes",
            _ => "a key in double quotes is wanted here, not \"{}\"",
        };
        wrong_byte(self.bytes, at, template)
    }

    /// Whether a letter or a digit stands at a place, at once behind a quote.
    fn is_behind_quote(&self, at: usize) -> bool {
        let before = byte_at(self.bytes, at.saturating_sub(1));
        before == b'"' && byte_at(self.bytes, at).is_ascii_alphanumeric()
    }

    /// What is wrong where a colon is wanted.
    fn no_colon(&self, at: usize) -> Wrong<'t> {
        if self.is_behind_quote(at) {
            return wrong_at(at, "a quote is missing or one too many before this");
        }
        match byte_at(self.bytes, at) {
            b',' | b'}' | b']' => {
                wrong_at(at, "\":\" and the value of the key are missing before this")
            }
            b'=' => wrong_at(at, "\":\" is wanted here, not \"=\""),
            _ => wrong_at(at, "\":\" is missing before this"),
        }
    }

    /// A closing sign of another kind than what is open, from a place.
    fn no_closing(&self, at: usize, open: usize) -> Wrong<'t> {
        let template = if byte_at(self.bytes, at) == b'}' {
            "\"}\" stands here, and open is the \"[\" at {}:{}"
        } else {
            "\"]\" stands here, and open is the \"{\" at {}:{}"
        };
        self.placed(at, template, open)
    }

    /// A mistake that is told with the line and the column of another place.
    fn placed(&self, at: usize, template: &'static str, other: usize) -> Wrong<'t> {
        let (line, column) = position_of(self.bytes, other);
        Wrong {
            place: at,
            template,
            first: Piece::Number(line as u64),
            second: Piece::Number(column as u64),
        }
    }

    /// What is wrong behind a value in a bracket or a brace, which is open from a place.
    fn no_comma(&self, at: usize, sign: u8, open: usize) -> Wrong<'t> {
        let template = match (byte_at(self.bytes, at), sign) {
            (b']' | b'}', _) => return self.no_closing(at, open),
            _ if self.is_behind_quote(at) => "a quote is missing or one too many before this",
            (b':', b'[') => "\":\" can't stand in a list; its \"]\" is missing before the key",
            (b'"' | b'{' | b'[' | b'-' | b'0'..=b'9' | b'a'..=b'z' | b'A'..=b'Z', _) => {
                "\",\" is missing before this"
            }
            (_, b'[') => "\",\" or \"]\" is wanted here, not \"{}\"",
            _ => "\",\" or \"}\" is wanted here, not \"{}\"",
        };
        wrong_byte(self.bytes, at, template)
    }

    /// Goes on behind a value.
    fn behind_value(&mut self, at: usize) -> Next<'t> {
        let Some((sign, open)) = self.innermost() else {
            return Err(wrong_at(
                at,
                "this stands behind the end of the policy, which is one object from \"{\" to \"}\"",
            ));
        };
        match (byte_at(self.bytes, at), sign) {
            (b',', b'{') => Ok((Wants::Key, at.saturating_add(1))),
            (b',', _) => Ok((Wants::Value, at.saturating_add(1))),
            (b'}', b'{') | (b']', b'[') => self.leave(at),
            _ => Err(self.no_comma(at, sign, open)),
        }
    }

    /// Goes on at a place at which no blank stands.
    fn step(&mut self, alloc: Global, wants: Wants, at: usize) -> Result<Next<'t>, NoMemory> {
        match (wants, byte_at(self.bytes, at)) {
            (_, b'#' | b'/') => Ok(Err(wrong_at(at, "JSON has no comments"))),
            (Wants::ValueOrEnd, b']') | (Wants::KeyOrEnd, b'}') => Ok(self.leave(at)),
            (Wants::Value | Wants::ValueOrEnd, _) => self.value(alloc, at),
            (Wants::Key | Wants::KeyOrEnd, b'"') => Ok(self.text(at, Wants::Colon)),
            (Wants::Key | Wants::KeyOrEnd, _) => Ok(Err(self.no_key(at))),
            (Wants::Colon, b':') => Ok(Ok((Wants::Value, at.saturating_add(1)))),
            (Wants::Colon, _) => Ok(Err(self.no_colon(at))),
            (Wants::CommaOrEnd, _) => Ok(self.behind_value(at)),
        }
    }

    /// What is wrong where the text ends, if something is.
    fn at_end(&self) -> Option<Wrong<'t>> {
        let (sign, open) = self.innermost()?;
        let last = before_blanks(self.bytes, self.bytes.len()).unwrap_or(0);
        let template = if sign == b'{' {
            "the text ends, and the \"{\" at {}:{} has no \"}\""
        } else {
            "the text ends, and the \"[\" at {}:{} has no \"]\""
        };
        Some(self.placed(last, template, open))
    }
}

/// The first mistake in a text that is to be JSON, if one is found.
pub(crate) fn first_wrong(alloc: Global, bytes: &[u8]) -> Result<Option<Wrong<'_>>, NoMemory> {
    let mut walk = Walk {
        bytes,
        open: Vec::new(alloc),
    };
    let mut wants = Wants::Value;
    let mut from = 0;
    for _step in 0..=bytes.len() {
        let at = behind_blanks(bytes, from);
        if at >= bytes.len() {
            return Ok(walk.at_end());
        }
        match walk.step(alloc, wants, at)? {
            Ok(next) => (wants, from) = next,
            Err(found) => return Ok(Some(found)),
        }
    }
    Ok(None)
}
