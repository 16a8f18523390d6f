//! What is wrong with a `let` up to its `=`.
use crate::expression::value_mistake;
use crate::extra::late_comment;
use lio_clauses::Names;
use lio_messages_hints::{
    Found, Message, Mistake, Piece, Word, comment_before, name_mistake, place_of_byte, told,
    told_one,
};
use std::alloc::Global;

/// What is told of several names in one line.
pub(crate) const ONE_NAME: &str = "a line binds one name: let X = A";

/// What is told of a type behind a name.
const NO_TYPE: &str = "no type stands behind a name: let {} = A";

/// Signs and words that stand where `=` does in other languages.
const BINDERS: [&str; 7] = ["->", "=>", "be", "to", "is", "as", "equals"];

/// What is wrong with the words behind `let`. `end` is how many bytes the line has.
pub(crate) fn let_mistake(alloc: Global, names: &Names, behind: &[Word<'_>], end: usize) -> Found {
    let [name, behind @ ..] = behind else {
        let text = "the name that is bound is missing here: let X = A";
        return told(alloc, end, text);
    };
    if name.is("=") {
        let text = "the name that is bound is missing before this: let X = A";
        return told(alloc, name.place, text);
    }
    if let Some(mistake) = names_mistake(alloc, *name, behind)? {
        return Ok(Some(mistake));
    }
    if let Some(mistake) = name_mistake(alloc, *name)? {
        return Ok(Some(mistake));
    }
    let [sign, behind @ ..] = behind else {
        return told(alloc, end, "\"=\" is missing here: let X = A");
    };
    if sign.is("=") {
        return match comment_before(behind, end) {
            Some(comment) => late_comment(alloc, comment),
            None => value_mistake(alloc, names, *name, behind, end),
        };
    }
    sign_mistake(alloc, *name, *sign, behind)
}

/// More than one name before `=`, or a type behind the name.
fn names_mistake(alloc: Global, name: Word<'_>, behind: &[Word<'_>]) -> Found {
    if let Some(at) = place_of_byte(name.text, b':') {
        let shown = Piece::Shown(name.text.get(..at).unwrap_or(name.text));
        return told_one(alloc, name.inside(at), NO_TYPE, shown);
    }
    if let [before @ .., b','] = name.text {
        return told(alloc, name.inside(before.len()), ONE_NAME);
    }
    let [second, third, ..] = behind else {
        return Ok(None);
    };
    if second.text.starts_with(b":") && !second.text.starts_with(b":=") {
        return told_one(alloc, second.place, NO_TYPE, Piece::Shown(name.text));
    }
    if second.is("=") || !third.is("=") {
        return Ok(None);
    }
    if name.is("mut") {
        let template = "there is no \"mut\"; each name may be bound again: let {} = A";
        return told_one(alloc, name.place, template, Piece::Shown(second.text));
    }
    told(
        alloc,
        second.place,
        "one name stands before \"=\": let X = A",
    )
}

/// Whether a word stands where `=` does in other languages, with a value behind it. What begins
/// with `<` is one word up to a `>`.
fn is_binder(sign: Word<'_>, behind: &[Word<'_>]) -> bool {
    if sign.text.starts_with(b":=") || sign.text.starts_with(b"<-") {
        return true;
    }
    for binder in BINDERS {
        if sign.is(binder) {
            return !behind.is_empty();
        }
    }
    false
}

/// What is wrong with a word that stands where `=` does.
fn sign_mistake(alloc: Global, name: Word<'_>, sign: Word<'_>, behind: &[Word<'_>]) -> Found {
    let bound = Piece::Shown(name.text);
    if is_binder(sign, behind) {
        return told_one(alloc, sign.place, "a name is bound by let {} = A", bound);
    }
    match sign.text {
        [op @ (b'+' | b'-' | b'*' | b'/' | b'%'), b'=', ..] => {
            let op = [*op];
            let template = "write the operator behind the \"=\": let {} = {} {} A";
            let mut message = Message::new(alloc);
            message.fill(template, bound, bound, Piece::Shown(&op));
            let text = message.finish()?;
            Ok(Some(Mistake {
                place: sign.place,
                text,
            }))
        }
        [b'=', ..] => {
            let text = "one \"=\" stands here, and a blank before and behind it";
            told(alloc, sign.place, text)
        }
        _ => told(alloc, sign.place, "\"=\" is missing before this: let X = A"),
    }
}
