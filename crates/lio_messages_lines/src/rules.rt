//! What is wrong with a line of a script that breaks a rule.

use crate::hints::{Hint, OpenAt, TakesAt, hint_at, line_at};
use crate::line::line_mistake;
use lio_clauses::{Names, NoMemory};
use lio_messages_hints::{
    Found, Message, Mistake, Piece, Word, similar_procedure, told, told_one, told_two, words_of,
};
use lio_syntax::parameter_count;
use lio_syntax_lines::{Keyword, read_header};
use lio_values::Text;
use std::alloc::Global;

/// The most lines of a script.
const MOST_LINES: u32 = 8_192;

/// What is wrong with the line of a script that has a number, from 1, and breaks a rule, and how to
/// mend it; none where nothing is found.
pub fn script_mistake(
    alloc: Global,
    names: &Names,
    script: &[u8],
    number: u32,
    rule: u32,
) -> Result<Option<Mistake>, NoMemory> {
    let line = line_at(script, number);
    match rule {
        1 => line_mistake(alloc, names, line),
        2..=6 => {
            let words = words_of(alloc, line)?;
            rule_mistake(alloc, script, words.as_slice(), number, rule)
        }
        _ => limit_mistake(alloc, line, number),
    }
}

/// What is wrong with a line of the right form, by its words.
fn rule_mistake(alloc: Global, script: &[u8], words: &[Word<'_>], number: u32, rule: u32) -> Found {
    match rule {
        5 => named_before(alloc, script, words),
        6 => named_twice(alloc, words),
        _ => {
            let hint = hint_at(alloc, script, number, rule)?;
            hinted(alloc, script, words, &hint)
        }
    }
}

/// What a hint says of a line.
fn hinted(alloc: Global, script: &[u8], words: &[Word<'_>], hint: &Hint) -> Found {
    match hint {
        Hint::Nothing => Ok(None),
        Hint::NothingOpen => nothing_open(alloc, words),
        Hint::Open(open) => still_open(alloc, words, open),
        Hint::NoProcedure(name) => no_procedure(alloc, script, words, name),
        Hint::Takes(takes) => wrong_count(alloc, words, takes),
    }
}

/// The first word of a line, if the language has it.
fn keyword(words: &[Word<'_>]) -> Option<Keyword> {
    Keyword::find(words.first()?.text)
}

/// The place of the first word of a line.
fn front(words: &[Word<'_>]) -> usize {
    match words.first() {
        Some(word) => word.place,
        None => 0,
    }
}

/// A line outside of a procedure.
fn nothing_open(alloc: Global, words: &[Word<'_>]) -> Found {
    let text = match keyword(words) {
        Some(Keyword::End | Keyword::Else | Keyword::Catch) => {
            "no block and no procedure is open here; there is one \"end\" too many"
        }
        _ => "no procedure is open here; \"proc P X ..\" begins one",
    };
    told(alloc, front(words), text)
}

/// A line that can't stand where it does, in a block or a procedure.
fn still_open(alloc: Global, words: &[Word<'_>], open: &OpenAt) -> Found {
    let template = match keyword(words) {
        None => "the text ends, and the \"{}\" of line {} has no \"end\"",
        Some(Keyword::End) => "the \"{}\" of line {} needs \"catch X Y\" before this \"end\"",
        Some(Keyword::Else) => {
            "\"else\" belongs to an \"if\"; open here is the \"{}\" of line {}"
        }
        Some(Keyword::Catch) => {
            "\"catch\" belongs to a \"try\"; open here is the \"{}\" of line {}"
        }
        _ => "a procedure begins here, and the \"{}\" of line {} has no \"end\"",
    };
    let line = Piece::Number((open.line as u64).saturating_add(1));
    let opener = Piece::Shown(open.word.word());
    told_two(alloc, front(words), template, opener, line)
}

/// The word of a line that is this name, behind its first word; the first word where none is.
fn place_of(words: &[Word<'_>], name: &[u8]) -> usize {
    for word in words.iter().skip(1) {
        if word.text == name {
            return word.place;
        }
    }
    front(words)
}

/// A procedure that isn't there.
fn no_procedure(alloc: Global, script: &[u8], words: &[Word<'_>], name: &Text) -> Found {
    if let [first, result, ..] = words
        && first.is("call")
        && parameter_count(alloc, script, result.text)?.is_some()
    {
        let template = "\"call\" first names what the result is bound to: call X {} ..";
        return told_one(alloc, result.place, template, Piece::Shown(result.text));
    }
    let shown = Piece::Shown(name.bytes());
    let place = place_of(words, name.bytes());
    let Some(meant) = similar_procedure(script, name.bytes()) else {
        let template = "no line begins with \"proc {}\"";
        return told_one(alloc, place, template, shown);
    };
    let mut message = Message::new(alloc);
    message.fill(
        "no line begins with \"proc {}\"; line {} begins with \"proc {}\"",
        shown,
        Piece::Number(first_line(script, meant).unwrap_or(0)),
        Piece::Shown(meant),
    );
    let text = message.finish()?;
    Ok(Some(Mistake { place, text }))
}

/// A procedure that is given another number of arguments than it has parameters.
fn wrong_count(alloc: Global, words: &[Word<'_>], takes: &TakesAt) -> Found {
    let name = takes.name.bytes();
    let mut message = Message::new(alloc);
    message.fill(
        "parameters of \"{}\": {}, arguments: {}",
        Piece::Shown(name),
        Piece::Number(takes.wanted as u64),
        Piece::Number(takes.given as u64),
    );
    let text = message.finish()?;
    let place = place_of(words, name);
    Ok(Some(Mistake { place, text }))
}

/// The number of the first line of a script that begins a procedure with this name.
fn first_line(script: &[u8], name: &[u8]) -> Option<u64> {
    for (before, line) in script.split(|byte| *byte == b'\n').enumerate() {
        if let Some((header, _)) = read_header(line)
            && header == name
        {
            return Some((before as u64).saturating_add(1));
        }
    }
    None
}

/// A procedure with the name of an earlier one.
fn named_before(alloc: Global, script: &[u8], words: &[Word<'_>]) -> Found {
    let [_, name, ..] = words else {
        return Ok(None);
    };
    let Some(line) = first_line(script, name.text) else {
        return Ok(None);
    };
    let template = "line {} begins a procedure \"{}\" already";
    let shown = Piece::Shown(name.text);
    told_two(alloc, name.place, template, Piece::Number(line), shown)
}

/// Whether one of the words is this one.
fn is_among(words: &[Word<'_>], text: &[u8]) -> bool {
    for word in words {
        if word.text == text {
            return true;
        }
    }
    false
}

/// A procedure that has a parameter twice.
fn named_twice(alloc: Global, words: &[Word<'_>]) -> Found {
    for (i, word) in words.iter().enumerate().skip(2) {
        let before = words.get(2..i).unwrap_or(&[]);
        if is_among(before, word.text) {
            let template = "\"{}\" is the name of a parameter before";
            return told_one(alloc, word.place, template, Piece::Shown(word.text));
        }
    }
    Ok(None)
}

/// A line past a limit.
fn limit_mistake(alloc: Global, line: &[u8], number: u32) -> Found {
    let words = words_of(alloc, line)?;
    let template = match keyword(words.as_slice()) {
        _ if number == 0 => "it has more than 262144 bytes, the most that a script has",
        _ if number > MOST_LINES => "a script has at most 8192 lines",
        Some(Keyword::Proc) => "a script has at most 512 procedures",
        _ => "at most 64 blocks are open in a procedure",
    };
    told(alloc, front(words.as_slice()), template)
}
