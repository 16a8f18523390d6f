//! What is wrong with parentheses behind a word.
use crate::form::form_text;
use lio_clauses::{Names, NoMemory};
use lio_messages_hints::{
    FUNCTIONS, Found, Message, Mistake, Piece, READERS, VALUES, Word, is_operand, mend_in,
    place_of_byte, told, told_one, told_two,
};
use lio_syntax_lines::{Keyword, One, is_name};
use std::alloc::Global;

/// What stands before the first parenthesis of a word, and the place of that; the whole word where
/// there is none.
pub(crate) fn head_of(word: &[u8]) -> (&[u8], usize) {
    let at = place_of_byte(word, b'(').unwrap_or(word.len());
    (word.get(..at).unwrap_or(word), at)
}

/// A statement or an operator whose operands stand in parentheses: its form.
pub(crate) fn without_parentheses(alloc: Global, first: Word<'_>) -> Found {
    let (name, at) = head_of(first.text);
    if at >= first.text.len() {
        return Ok(None);
    }
    let (template, piece) = match Keyword::find(name) {
        Some(keyword) => {
            let form = Piece::Words(form_text(keyword));
            ("there are no parentheses: {}", form)
        }
        None if One::find(name).is_some() => {
            let template = "there are no parentheses: let X = {} A, with one operator on a line";
            (template, Piece::Shown(name))
        }
        None => return Ok(None),
    };
    told_one(alloc, first.inside(at), template, piece)
}

/// A word without the signs that end a list of arguments.
fn without_last_signs(word: &[u8]) -> &[u8] {
    let mut rest = word;
    for _byte in word {
        match rest {
            [before @ .., b')' | b',' | b';'] => rest = before,
            _ => return rest,
        }
    }
    rest
}

/// Writes an argument of a call behind a message, unless it is none without the signs round it;
/// answers whether it is one.
fn append_argument(
    alloc: Global,
    names: &Names,
    message: &mut Message,
    word: &[u8],
) -> Result<bool, NoMemory> {
    let argument = without_last_signs(word);
    if argument.is_empty() {
        return Ok(true);
    }
    if !is_operand(alloc, names, argument)? {
        return Ok(false);
    }
    message.words(" ");
    message.bytes(argument);
    Ok(true)
}

/// A message that ends with the front of a call, and the arguments of that: as they are written, if
/// they are names and values.
pub(crate) fn call_text(
    alloc: Global,
    names: &Names,
    head: &Message,
    first: &[u8],
    behind: &[Word<'_>],
) -> Result<String, NoMemory> {
    let mut message = head.copy(alloc);
    let mut are_whole = append_argument(alloc, names, &mut message, first)?;
    for word in behind {
        if are_whole {
            are_whole = append_argument(alloc, names, &mut message, word.text)?;
        }
    }
    if are_whole {
        return message.finish();
    }
    let mut message = head.copy(alloc);
    message.words(" A ..");
    message.finish()
}

/// What is told of a call where a value is wanted.
const CALLED: &str = "a procedure is called by a statement of its own: call {} {}";

/// A call in parentheses where a value is wanted. `name` is the name that is bound.
pub(crate) fn call_mistake(
    alloc: Global,
    names: &Names,
    name: Word<'_>,
    first: Word<'_>,
    behind: &[Word<'_>],
) -> Found {
    let (head, at) = head_of(first.text);
    if at >= first.text.len() {
        return Ok(None);
    }
    if let Some(mend) = mend_in(&FUNCTIONS, head) {
        let template = "there is no \"{}\"; write \"{}\", without parentheses";
        return told_two(
            alloc,
            first.place,
            template,
            Piece::Shown(head),
            Piece::Words(mend),
        );
    }
    if let Some(text) = mend_in(&READERS, head) {
        return told(alloc, first.place, text);
    }
    if let Some(text) = mend_in(&VALUES, head) {
        return told(alloc, first.place, text);
    }
    if !is_name(head) {
        return Ok(None);
    }
    let arguments = first.text.get(at.saturating_add(1)..).unwrap_or(b"");
    let mut message = Message::new(alloc);
    message.fill(
        CALLED,
        Piece::Shown(name.text),
        Piece::Shown(head),
        Piece::Nothing,
    );
    let text = call_text(alloc, names, &message, arguments, behind)?;
    let place = first.inside(at);
    Ok(Some(Mistake { place, text }))
}
