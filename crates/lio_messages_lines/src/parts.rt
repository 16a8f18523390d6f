//! What is wrong with the words behind a first word.
use crate::binding::let_mistake;
use crate::call::head_of;
use crate::extra::{late_comment, too_many};
use crate::form::{Fits, Form, Part, form_meant};
use crate::procedure::procedure_mistake;
use lio_clauses::Names;
use lio_messages_hints::{
    Found, Message, Mistake, Piece, Word, is_operand, is_value_like, name_mistake, operand_mistake,
    place_of_byte, told, told_one, told_two,
};
use lio_syntax_lines::{Keyword, One, is_name};
use std::alloc::Global;

/// What is wrong with the words behind a first word. `end` is how many bytes the line has.
pub(crate) fn form_mistake<'l>(
    alloc: Global,
    names: &Names,
    keyword: Keyword,
    first: Word<'l>,
    behind: &[Word<'l>],
    end: usize,
) -> Found {
    match keyword {
        Keyword::Let => let_mistake(alloc, names, behind, end),
        Keyword::Proc => procedure_mistake(alloc, behind, end),
        _ => {
            let form = form_meant(keyword, behind);
            parts_mistake(alloc, names, &form, first, behind, end)
        }
    }
}

/// What is wrong with the words of a form.
fn parts_mistake<'l>(
    alloc: Global,
    names: &Names,
    form: &Form,
    first: Word<'l>,
    behind: &[Word<'l>],
    end: usize,
) -> Found {
    for (i, part) in form.parts.iter().enumerate() {
        let Some(word) = behind.get(i) else {
            return missing(alloc, form, *part, behind, end);
        };
        let found = match part {
            Part::Bound | Part::Name(_) => named_mistake(alloc, form, first, *word, behind, i),
            Part::Operand(what, _) => {
                value_mistake(alloc, names, form, first, *word, behind, *what)
            }
            Part::Word(_) => Ok(None),
        };
        if let Some(mistake) = found? {
            return Ok(Some(mistake));
        }
    }
    let Some(more) = behind.get(form.parts.len()..) else {
        return Ok(None);
    };
    if form.more {
        return operands_mistake(alloc, names, more);
    }
    match more.first() {
        Some(word) => {
            let mut last = first;
            for before in behind.iter().take(form.parts.len()) {
                last = *before;
            }
            too_many(alloc, form, first, last, more, *word)
        }
        None => Ok(None),
    }
}

/// A sign of a form of another language, which has no place in this one.
fn foreign_sign(alloc: Global, form: &Form, word: Word<'_>) -> Found {
    let text = Piece::Words(form.text);
    if word.is("=") {
        return told_one(alloc, word.place, "no \"=\" stands here: {}", text);
    }
    if word.is("[") || word.is("[[") {
        return told_one(alloc, word.place, "there are no brackets: {}", text);
    }
    if word.text.starts_with(b"(") && !word.text.starts_with(b"()") {
        return told_one(alloc, word.place, "there are no parentheses: {}", text);
    }
    Ok(None)
}

/// What is wrong with a word of a form that is to be a name, at a place among the words.
fn named_mistake(
    alloc: Global,
    form: &Form,
    first: Word<'_>,
    word: Word<'_>,
    behind: &[Word<'_>],
    place: usize,
) -> Found {
    if let Some(mistake) = foreign_sign(alloc, form, word)? {
        return Ok(Some(mistake));
    }
    let text = Piece::Words(form.text);
    if let Some(at) = place_of_byte(word.text, b'(') {
        return told_one(alloc, word.inside(at), "there are no parentheses: {}", text);
    }
    if is_value_like(word.text) {
        return no_name(alloc, form, first, word, behind, place);
    }
    if let Some(at) = place_of_byte(word.text, b'=') {
        return told_one(alloc, word.inside(at), "no \"=\" stands here: {}", text);
    }
    name_mistake(alloc, word)
}

/// A value where a form has a name.
fn no_name(
    alloc: Global,
    form: &Form,
    first: Word<'_>,
    word: Word<'_>,
    behind: &[Word<'_>],
    place: usize,
) -> Found {
    if place == 1
        && first.is("call")
        && let Some(before) = behind.first()
    {
        let template = "\"call\" first names what the result is bound to: call X {} ..";
        return told_one(alloc, before.place, template, Piece::Shown(before.text));
    }
    let is_short = behind.len() < form.parts.len() || form.more && word.text.starts_with(b"<");
    if place == 0 && is_short {
        let template = "the name that is bound is missing before this: {}";
        return told_one(alloc, word.place, template, Piece::Words(form.text));
    }
    name_mistake(alloc, word)
}

/// What is told of an operator in a form that takes none.
fn no_operator(alloc: Global, first: Word<'_>, place: usize, op: &[u8]) -> Found {
    let template = "\"{}\" takes no operator; bind what \"{}\" gives by \"let\" on a line before";
    let op = Piece::Shown(op);
    told_two(alloc, place, template, Piece::Shown(first.text), op)
}

/// What is wrong with a word of a form that is to be a name or a value.
fn value_mistake(
    alloc: Global,
    names: &Names,
    form: &Form,
    first: Word<'_>,
    word: Word<'_>,
    behind: &[Word<'_>],
    what: &str,
) -> Found {
    if let Some(mistake) = foreign_sign(alloc, form, word)? {
        return Ok(Some(mistake));
    }
    let (head, at) = head_of(word.text);
    if One::find(head).is_some() {
        return no_operator(alloc, first, word.place, head);
    }
    if let [b'!', value @ ..] = word.text
        && is_operand(alloc, names, value)?
    {
        return no_operator(alloc, first, word.place, b"not");
    }
    if at < word.text.len() && is_name(head) {
        let template = "a procedure is called on a line before: call X {} A ..";
        return told_one(alloc, word.inside(at), template, Piece::Shown(head));
    }
    if what == "a channel" && is_file(word.text) {
        let text = "a channel is a parameter of the procedure, and no file";
        return told(alloc, word.place, text);
    }
    if form.parts.len() == 1
        && behind.len() > 1
        && let [before @ .., b','] = word.text
    {
        let template = "\"{}\" takes one value; a list holds several";
        let place = word.inside(before.len());
        return told_one(alloc, place, template, Piece::Shown(first.text));
    }
    operand_mistake(alloc, names, word)
}

/// Whether a word looks like the name of a file: a name, a point, and a name.
fn is_file(word: &[u8]) -> bool {
    match place_of_byte(word, b'.') {
        Some(at) => {
            is_name(word.get(..at).unwrap_or(b""))
                && is_name(word.get(at.saturating_add(1)..).unwrap_or(b""))
        }
        None => false,
    }
}

/// What is wrong with further operands.
fn operands_mistake(alloc: Global, names: &Names, words: &[Word<'_>]) -> Found {
    for word in words {
        if word.text.starts_with(b"#") {
            return late_comment(alloc, *word);
        }
        if let Some(mistake) = operand_mistake(alloc, names, *word)? {
            return Ok(Some(mistake));
        }
    }
    Ok(None)
}

/// What kind of literal a word is; none of a name.
fn literal_kind(word: &[u8]) -> Option<Fits> {
    match word {
        [b'<', ..] => Some(Fits::Label),
        [b'"', ..] => Some(Fits::Text),
        [b'0'..=b'9' | b'-', ..] => Some(Fits::Whole),
        b"true" | b"false" => Some(Fits::Flag),
        b"unit" | b"[]" => Some(Fits::Any),
        _ => None,
    }
}

/// The first word that is a literal of another kind than its part of a form, with what is wanted.
fn unfit<'l>(form: &Form, behind: &[Word<'l>]) -> Option<(Word<'l>, &'static str)> {
    for (part, word) in form.parts.iter().zip(behind.iter()) {
        let Part::Operand(what, fits) = *part else {
            continue;
        };
        let Some(kind) = literal_kind(word.text) else {
            continue;
        };
        if fits != Fits::Any && fits != kind {
            return Some((*word, what));
        }
    }
    None
}

/// A word of a form that isn't there: an earlier one that is a literal of another kind, or else the
/// first that is missing.
fn missing(alloc: Global, form: &Form, part: Part, behind: &[Word<'_>], end: usize) -> Found {
    let text = Piece::Words(form.text);
    if let Some((word, what)) = unfit(form, behind) {
        let mut message = Message::new(alloc);
        message.fill(
            "{} is wanted here, and {} is none: {}",
            Piece::Words(what),
            Piece::Shown(word.text),
            text,
        );
        let text = message.finish()?;
        let place = word.place;
        return Ok(Some(Mistake { place, text }));
    }
    let what = match part {
        Part::Bound => "the name that is bound",
        Part::Name(what) | Part::Operand(what, _) | Part::Word(what) => what,
    };
    told_two(
        alloc,
        end,
        "{} is missing here: {}",
        Piece::Words(what),
        text,
    )
}
