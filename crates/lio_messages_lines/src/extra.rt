//! Words behind a form.
use crate::form::Form;
use crate::operation::pair_of;
use lio_messages_hints::{Found, NEW, Piece, SIGNS, Word, mend_in, told, told_two};
use lio_syntax_lines::{Keyword, One, Two, is_name};
use std::alloc::Global;

/// What is told of a second statement.
pub(crate) const STATEMENT: &str = "each statement has a line of its own";

/// A comment that has no line of its own.
pub(crate) fn late_comment(alloc: Global, word: Word<'_>) -> Found {
    told(alloc, word.place, "a comment has a line of its own")
}

/// Whether a word parts two statements in other languages.
fn is_parting(word: Word<'_>) -> bool {
    word.is(";") || word.is("&&") || word.is("||") || word.is("|")
}

/// What is told of an operator of other languages in a form that takes one value.
fn foreign_operator(alloc: Global, words: &[Word<'_>], word: Word<'_>) -> Found {
    let pair = match words {
        [first, second, ..] => pair_of(*first, *second),
        _ => None,
    };
    let op = match pair {
        Some(pair) => pair.as_bytes(),
        None => word.text,
    };
    let Some(mend) = mend_in(&SIGNS, op) else {
        return Ok(None);
    };
    let template = "there is no \"{}\"; {}, in a \"let\" on a line before";
    told_two(
        alloc,
        word.place,
        template,
        Piece::Shown(op),
        Piece::Words(mend),
    )
}

/// A privilege without its `using`, or with another word in place of that.
fn without_using(alloc: Global, words: &[Word<'_>], word: Word<'_>) -> Found {
    match words {
        [other] if other.is("with") || other.is("by") => {
            told(
                alloc,
                word.place,
                "write \"using\" here: unlabel X A using P",
            )
        }
        [privilege] if is_name(privilege.text) => {
            let text = "\"using\" is missing before this: unlabel X A using P";
            told(alloc, word.place, text)
        }
        [_, privilege] if is_name(privilege.text) => {
            told(
                alloc,
                word.place,
                "write \"using\" here: unlabel X A using P",
            )
        }
        _ => Ok(None),
    }
}

/// What is told of one word too many.
fn one_too_many<'l>(alloc: Global, form: &Form, first: Word<'l>, word: Word<'l>) -> Found {
    let shown = Piece::Shown(word.text);
    let keyword = Piece::Shown(first.text);
    let (template, one, other) = if One::find(word.text).is_some()
        || Two::find(word.text).is_some()
    {
        let template =
            "\"{}\" takes no operator; bind what \"{}\" gives by \"let\" on a line before";
        (template, keyword, shown)
    } else if form.parts.is_empty() {
        ("\"{}\" stands alone on its line", keyword, Piece::Nothing)
    } else if word.text.starts_with(b"\"") {
        (
            "{} is one word too many: {}",
            shown,
            Piece::Words(form.text),
        )
    } else {
        (
            "\"{}\" is one word too many: {}",
            shown,
            Piece::Words(form.text),
        )
    };
    told_two(alloc, word.place, template, one, other)
}

/// A word behind a form, the first of these; `last` is the one before it.
pub(crate) fn too_many<'l>(
    alloc: Global,
    form: &Form,
    first: Word<'l>,
    last: Word<'l>,
    words: &[Word<'l>],
    word: Word<'l>,
) -> Found {
    if word.text.starts_with(b"#") || word.text.starts_with(b"//") {
        return late_comment(alloc, word);
    }
    if first.is("else") && word.is("if") {
        let text =
            "\"else\" stands alone; the \"if\" has a line of its own in it, and an \"end\" of its own";
        return told(alloc, word.place, text);
    }
    if last.is("new") {
        return told(alloc, last.place, NEW);
    }
    if let [_] = form.parts
        && let Some(mistake) = foreign_operator(alloc, words, word)?
    {
        return Ok(Some(mistake));
    }
    if first.is("unlabel")
        && form.parts.len() == 2
        && let Some(mistake) = without_using(alloc, words, word)?
    {
        return Ok(Some(mistake));
    }
    let is_statement = One::find(word.text).is_none()
        && Two::find(word.text).is_none()
        && Keyword::find(word.text).is_some();
    if is_parting(word) || is_statement && !form.parts.is_empty() {
        return told(alloc, word.place, STATEMENT);
    }
    one_too_many(alloc, form, first, word)
}
