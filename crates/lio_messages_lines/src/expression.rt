//! What is wrong with the words behind `let X =`.
use crate::call::{call_mistake, without_parentheses};
use crate::extra::STATEMENT;
use crate::form::{binds_and_fits, form_text};
use crate::operation::{binary_mistake, further, unary_mistake};
use lio_clauses::Names;
use lio_messages_hints::{
    Found, MAPS, Message, Mistake, Piece, TWO_LINES, VALUES, Word, append_words, is_operand,
    mend_in, method_mistake, operand_mistake, told, told_two,
};
use lio_syntax_lines::{Keyword, One, Two, is_name};
use std::alloc::Global;

/// A statement that stands where a value is wanted: as it is written, if its words are there and it
/// binds the name; else its form.
fn statement_mistake(
    alloc: Global,
    name: Word<'_>,
    keyword: Keyword,
    place: usize,
    behind: &[Word<'_>],
) -> Found {
    let word = Piece::Shown(keyword.word());
    if !binds_and_fits(keyword, behind.len().saturating_add(1)) {
        let template = "\"{}\" is a statement of its own: {}";
        let form = Piece::Words(form_text(keyword));
        return told_two(alloc, place, template, word, form);
    }
    let mut message = Message::new(alloc);
    let template = "\"{}\" is a statement of its own, which binds the name: {} {}";
    message.fill(template, word, word, Piece::Shown(name.text));
    append_words(&mut message, behind);
    let text = message.finish()?;
    Ok(Some(Mistake { place, text }))
}

/// A word that begins a statement, where a value is wanted, if it is one and no operator.
fn statement_in(word: Word<'_>) -> Option<Keyword> {
    if One::find(word.text).is_some() || Two::find(word.text).is_some() {
        return None;
    }
    Keyword::find(word.text)
}

/// A value that is chosen by a flag.
fn choice_mistake(alloc: Global, name: Word<'_>, word: Word<'_>) -> Found {
    let template = if word.is("if") {
        "\"{}\" gives no value; choose by lines of their own: if A, let {} = B, else, let {} = C, end"
    } else {
        "there is no \"{}\"; choose by lines of their own: if A, let {} = B, else, let {} = C, end"
    };
    let bound = Piece::Shown(name.text);
    let mut message = Message::new(alloc);
    message.fill(template, Piece::Shown(word.text), bound, bound);
    let text = message.finish()?;
    let place = word.place;
    Ok(Some(Mistake { place, text }))
}

/// What is wrong with the first of the words behind `let X =`, by itself.
fn first_value_mistake(
    alloc: Global,
    names: &Names,
    name: Word<'_>,
    first: Word<'_>,
    behind: &[Word<'_>],
) -> Found {
    if first.is("if") {
        return choice_mistake(alloc, name, first);
    }
    if let Some(keyword) = statement_in(first) {
        return statement_mistake(alloc, name, keyword, first.place, behind);
    }
    if first.text.starts_with(b"{") {
        return told(alloc, first.place, MAPS);
    }
    if first.text.starts_with(b"[") {
        return operand_mistake(alloc, names, first);
    }
    if let [second, ..] = behind
        && Two::find(second.text).is_none()
    {
        if first.is("await") {
            return statement_mistake(alloc, name, Keyword::Wait, first.place, behind);
        }
        if let Some(text) = mend_in(&VALUES, first.text) {
            return told(alloc, first.place, text);
        }
    }
    if let Some(mistake) = without_parentheses(alloc, first)? {
        return Ok(Some(mistake));
    }
    if let Some(mistake) = call_mistake(alloc, names, name, first, behind)? {
        return Ok(Some(mistake));
    }
    method_mistake(alloc, name.text, first)
}

/// A word that ends a line in other languages, before others, or that begins another statement.
fn later_statement(alloc: Global, names: &Names, name: Word<'_>, words: &[Word<'_>]) -> Found {
    for (i, word) in words.iter().enumerate() {
        if let [value @ .., b';'] = word.text
            && i.saturating_add(1) < words.len()
            && is_operand(alloc, names, value)?
        {
            let text = "no \";\" ends a line, and each statement has a line of its own";
            return told(alloc, word.inside(value.len()), text);
        }
        if i == 0 {
            continue;
        }
        if word.is("if") || word.is("?") || word.is("??") {
            return choice_mistake(alloc, name, *word);
        }
        if statement_in(*word).is_some() {
            return told(alloc, word.place, STATEMENT);
        }
    }
    Ok(None)
}

/// A word in parentheses among the words behind `let X =`.
fn parenthesis_mistake(alloc: Global, name: Word<'_>, words: &[Word<'_>]) -> Found {
    for (i, word) in words.iter().enumerate() {
        if !word.text.starts_with(b"(") || word.is("()") {
            continue;
        }
        if i == 0
            && let Some(arrow) = words.get(1)
            && arrow.is("=>")
            && let Some(text) = mend_in(&VALUES, b"fn")
        {
            return told(alloc, word.place, text);
        }
        if i == 1
            && let Some(first) = words.first()
            && is_name(first.text)
            && Two::find(first.text).is_none()
        {
            return call_behind(alloc, name, *first, *word);
        }
        return told(alloc, word.place, TWO_LINES);
    }
    Ok(None)
}

/// A call in which a blank stands before the parenthesis.
fn call_behind(alloc: Global, name: Word<'_>, procedure: Word<'_>, word: Word<'_>) -> Found {
    let template = "a procedure is called by a statement of its own: call {} {} A ..";
    let procedure = Piece::Shown(procedure.text);
    told_two(
        alloc,
        word.place,
        template,
        Piece::Shown(name.text),
        procedure,
    )
}

/// What is wrong with the words behind `let X =`.
pub(crate) fn value_mistake(
    alloc: Global,
    names: &Names,
    name: Word<'_>,
    words: &[Word<'_>],
    end: usize,
) -> Found {
    let [first, behind @ ..] = words else {
        return told(alloc, end, "a value is missing here: let X = A");
    };
    if let Some(mistake) = first_value_mistake(alloc, names, name, *first, behind)? {
        return Ok(Some(mistake));
    }
    if let Some(mistake) = parenthesis_mistake(alloc, name, words)? {
        return Ok(Some(mistake));
    }
    if let Some(mistake) = later_statement(alloc, names, name, words)? {
        return Ok(Some(mistake));
    }
    match words {
        [value] if One::find(value.text).is_some() => told(
            alloc,
            end,
            "a value is missing behind the operator: let X = OP A",
        ),
        [value] => operand_mistake(alloc, names, *value),
        [first, second] => unary_mistake(alloc, names, name, *first, *second, end),
        [left, op, right] => binary_mistake(alloc, names, *left, *op, *right),
        _ => further(alloc, names, words),
    }
}
