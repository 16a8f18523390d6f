//! What is wrong with an operator and its operands.
use crate::call::call_text;
use crate::extra::late_comment;
use lio_clauses::{Names, NoMemory};
use lio_messages_hints::{
    FUNCTIONS, Found, Message, Mistake, Piece, SIGNS, Word, is_operand, joined_mistake, mend_in,
    operand_mistake, told, told_one, told_two,
};
use lio_syntax_lines::{One, Two, is_name};
use std::alloc::Global;

/// Whether a word is an operator on one value or on two.
fn is_operator(word: Word<'_>) -> bool {
    One::find(word.text).is_some() || Two::find(word.text).is_some()
}

/// The operator of other languages that two words are together, if they are one.
pub(crate) fn pair_of(first: Word<'_>, second: Word<'_>) -> Option<&'static str> {
    if first.is("is") && second.is("not") {
        Some("is not")
    } else if first.is("not") && second.is("in") {
        Some("not in")
    } else {
        None
    }
}

/// What is told of an operator of other languages, if it is one.
fn foreign_mistake(alloc: Global, place: usize, op: &[u8]) -> Found {
    match mend_in(&SIGNS, op) {
        Some(mend) => told_two(
            alloc,
            place,
            "there is no \"{}\"; {}",
            Piece::Shown(op),
            Piece::Words(mend),
        ),
        None => Ok(None),
    }
}

/// More words than those of one operator on two values.
pub(crate) fn further(alloc: Global, names: &Names, words: &[Word<'_>]) -> Found {
    let [first, second, third, more, ..] = words else {
        return Ok(None);
    };
    if second.text.starts_with(b"//") {
        return late_comment(alloc, *second);
    }
    if more.text.starts_with(b"//") {
        return late_comment(alloc, *more);
    }
    if let Some(pair) = pair_of(*second, *third) {
        return foreign_mistake(alloc, second.place, pair.as_bytes());
    }
    if (!is_operator(*first) || first.is("<"))
        && let Some(mistake) = operand_mistake(alloc, names, *first)?
    {
        return Ok(Some(mistake));
    }
    told(
        alloc,
        more.place,
        "\"let\" takes one operator; write a second line",
    )
}

/// The length of the operator of signs with which a word begins, if it begins with one.
fn operator_length(word: &[u8]) -> Option<usize> {
    match word {
        [b'<' | b'=' | b'!', b'=', ..] => Some(2),
        [b'-' | b'+' | b'*' | b'/' | b'%' | b'<', ..] => Some(1),
        _ => None,
    }
}

/// A value, and an operator with another value at once behind it.
fn tight_mistake(alloc: Global, names: &Names, first: Word<'_>, second: Word<'_>) -> Found {
    let Some(length) = operator_length(second.text) else {
        return Ok(None);
    };
    let value = second.text.get(length..).unwrap_or(b"");
    if is_operand(alloc, names, first.text)? && is_operand(alloc, names, value)? {
        let sign = Piece::Shown(second.text.get(..length).unwrap_or(b""));
        let template = "a blank stands behind the operator \"{}\"";
        return told_one(alloc, second.place, template, sign);
    }
    Ok(None)
}

/// What is wrong with `OP A`, or what was meant by it.
pub(crate) fn unary_mistake(
    alloc: Global,
    names: &Names,
    name: Word<'_>,
    first: Word<'_>,
    second: Word<'_>,
    end: usize,
) -> Found {
    if One::find(first.text).is_some() {
        return operand_mistake(alloc, names, second);
    }
    if second.text.starts_with(b"//") {
        return late_comment(alloc, second);
    }
    if let Some(mistake) = tight_mistake(alloc, names, first, second)? {
        return Ok(Some(mistake));
    }
    if second.text.starts_with(b"<<") {
        return foreign_mistake(alloc, second.place, b"<<");
    }
    if Two::find(first.text).is_some() && !first.is("-") && !first.is("<") {
        return prefix_mistake(alloc, first);
    }
    if Two::find(second.text).is_some() {
        let text = "a value is missing behind the operator: let X = A OP A";
        return told(alloc, end, text);
    }
    match first.text {
        [b'!'] => told(alloc, first.place, "write \"not\""),
        [b'-'] => told(alloc, first.place, "write \"neg\""),
        _ => two_words(alloc, names, name, first, second),
    }
}

/// Two words of which the first is no operator.
fn two_words(
    alloc: Global,
    names: &Names,
    name: Word<'_>,
    first: Word<'_>,
    second: Word<'_>,
) -> Found {
    if let Some(mend) = mend_in(&FUNCTIONS, first.text) {
        let template = "there is no \"{}\"; write \"{}\"";
        let shown = Piece::Shown(first.text);
        return told_two(alloc, first.place, template, shown, Piece::Words(mend));
    }
    if !is_operand(alloc, names, first.text)? {
        return match joined_mistake(alloc, names, first)? {
            Some(mistake) => Ok(Some(mistake)),
            None => no_operator(alloc, names, first),
        };
    }
    if !is_name(first.text) {
        let text = "an operator is missing before this: let X = A OP B";
        return told(alloc, second.place, text);
    }
    let text = named_operator(alloc, names, name, first, second)?;
    let place = first.place;
    Ok(Some(Mistake { place, text }))
}

/// A word that is no operator and no value.
fn no_operator(alloc: Global, names: &Names, first: Word<'_>) -> Found {
    if let Some(mistake) = operand_mistake(alloc, names, first)? {
        return Ok(Some(mistake));
    }
    let template =
        "\"{}\" is no operator on one value; there are not, neg, len, num, str and labelof";
    told_one(alloc, first.place, template, Piece::Shown(first.text))
}

/// What is told of a name that stands where an operator does: as a call, it is a statement.
fn named_operator(
    alloc: Global,
    names: &Names,
    name: Word<'_>,
    first: Word<'_>,
    second: Word<'_>,
) -> Result<String, NoMemory> {
    let shown = Piece::Shown(first.text);
    let mut message = Message::new(alloc);
    message.fill(
        "\"{}\" is no operator (there are not, neg, len, num, str and labelof); a procedure is called by a statement of its own: call {} {}",
        shown,
        Piece::Shown(name.text),
        shown,
    );
    call_text(alloc, names, &message, second.text, &[])
}

/// An operator on two values that stands before both.
fn prefix_mistake(alloc: Global, op: Word<'_>) -> Found {
    let op_text = Piece::Shown(op.text);
    let template = "the operator \"{}\" stands between its two values: let X = A {} A";
    told_two(alloc, op.place, template, op_text, op_text)
}

/// What is wrong with `A OP A`.
pub(crate) fn binary_mistake(
    alloc: Global,
    names: &Names,
    left: Word<'_>,
    op: Word<'_>,
    right: Word<'_>,
) -> Found {
    if left.is("<") {
        return operand_mistake(alloc, names, left);
    }
    if Two::find(left.text).is_some() && Two::find(op.text).is_none() {
        return prefix_mistake(alloc, left);
    }
    if One::find(left.text).is_some() && Two::find(op.text).is_none() {
        let text = "\"let\" takes one operator; write a second line";
        return told(alloc, right.place, text);
    }
    if let Some(mistake) = operand_mistake(alloc, names, left)? {
        return Ok(Some(mistake));
    }
    if Two::find(op.text).is_some() {
        return operand_mistake(alloc, names, right);
    }
    if let Some(mistake) = foreign_mistake(alloc, op.place, op.text)? {
        return Ok(Some(mistake));
    }
    let template =
        "\"{}\" is no operator on two values; there are + - * / % == != < <= and or join meet flows from upto find push at";
    told_one(alloc, op.place, template, Piece::Shown(op.text))
}
