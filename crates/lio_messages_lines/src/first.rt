//! First words that begin no line.
use crate::binding::ONE_NAME;
use lio_messages_hints::{
    FIRST, Found, Message, Mistake, Piece, Word, mend_in, method_mistake, near_word, place_of_byte,
    same_word, told, told_one, told_two,
};
use lio_syntax_lines::{One, Two, is_name};
use std::alloc::Global;

/// Signs that begin or end comments elsewhere.
const COMMENTS: [&str; 5] = ["//", "--", "/*", ";", "%"];

/// Whether a word begins as a comment does elsewhere.
fn is_comment(word: &[u8]) -> bool {
    for sign in COMMENTS {
        if word.starts_with(sign.as_bytes()) {
            return true;
        }
    }
    false
}

/// The front of a word up to a sign that begins a block or arguments, or ends a line, elsewhere.
fn front_of(word: &[u8]) -> &[u8] {
    for (at, byte) in word.iter().enumerate().skip(1) {
        if matches!(*byte, b'(' | b';' | b':' | b'{') {
            return word.get(..at).unwrap_or(word);
        }
    }
    word
}

/// A closing brace at the beginning of a line.
fn brace_mistake(alloc: Global, first: Word<'_>, behind: &[Word<'_>]) -> Found {
    let Some(rest) = first.text.strip_prefix(b"}") else {
        return Ok(None);
    };
    let next = match behind {
        [next, ..] if rest.is_empty() => next.text,
        _ => rest,
    };
    let text = match front_of(next) {
        b"else" => "no statement begins with \"}\"; \"else\" stands alone on its line",
        b"catch" | b"except" => {
            "no statement begins with \"}\"; \"catch X Y\" has a line of its own"
        }
        _ => "no statement begins with \"}\"; \"end\" ends each block and each procedure",
    };
    told(alloc, first.place, text)
}

/// A name that is counted up or down by a sign behind it.
fn counted_mistake(alloc: Global, first: Word<'_>) -> Found {
    let (name, op) = match first.text {
        [name @ .., b'+', b'+'] | [name @ .., b'+', b'+', b';'] => (name, "+"),
        [name @ .., b'-', b'-'] | [name @ .., b'-', b'-', b';'] => (name, "-"),
        _ => return Ok(None),
    };
    if !is_name(name) {
        return Ok(None);
    }
    let mut message = Message::new(alloc);
    let shown = Piece::Shown(name);
    message.fill(
        "a name is bound by \"let {} = {} {} 1\"",
        shown,
        shown,
        Piece::Words(op),
    );
    let text = message.finish()?;
    Ok(Some(Mistake {
        place: first.place,
        text,
    }))
}

/// A name with an operator and `=` behind it.
fn changed_mistake(alloc: Global, first: Word<'_>, sign: Word<'_>) -> Found {
    let [op @ (b'+' | b'-' | b'*' | b'/' | b'%'), b'='] = sign.text else {
        return Ok(None);
    };
    if !is_name(first.text) {
        return Ok(None);
    }
    let op = [*op];
    let mut message = Message::new(alloc);
    let shown = Piece::Shown(first.text);
    message.fill(
        "a name is bound by \"let {} = {} {} A\"",
        shown,
        shown,
        Piece::Shown(&op),
    );
    let text = message.finish()?;
    Ok(Some(Mistake {
        place: first.place,
        text,
    }))
}

/// What is told of a value that is bound without `let`.
const BOUND: &str = "a name is bound by \"let {} = A\"";

/// A value that is bound without `let`.
fn bound_mistake(alloc: Global, first: Word<'_>, behind: &[Word<'_>]) -> Found {
    if let Some(mistake) = counted_mistake(alloc, first)? {
        return Ok(Some(mistake));
    }
    if let Some(at) = place_of_byte(first.text, b'=') {
        let name = first.text.get(..at).unwrap_or(b"");
        if is_name(name) {
            return told_one(alloc, first.place, BOUND, Piece::Shown(name));
        }
    }
    let [sign, ..] = behind else {
        return Ok(None);
    };
    if let Some(mistake) = changed_mistake(alloc, first, *sign)? {
        return Ok(Some(mistake));
    }
    if matches!(sign.text, [b'=', ..] | [b':', b'=', ..] | [b'<', b'-', ..]) {
        return bound_behind(alloc, first);
    }
    match first.text {
        [name @ .., b','] if is_name(name) => told(alloc, first.place, ONE_NAME),
        _ => Ok(None),
    }
}

/// A word with `=` behind it.
fn bound_behind(alloc: Global, first: Word<'_>) -> Found {
    if let Some(at) = place_of_byte(first.text, b'[')
        && is_name(first.text.get(..at).unwrap_or(b""))
    {
        let text = "a list never changes; \"push\" and \"+\" make another: let X = A push B";
        return told(alloc, first.place, text);
    }
    told_one(alloc, first.place, BOUND, Piece::Shown(first.text))
}

/// An operator that begins a line.
fn operator_mistake(alloc: Global, first: Word<'_>) -> Found {
    let template = if One::find(first.text).is_some() {
        "no statement begins with \"{}\"; it stands in a \"let\": let X = {} A"
    } else if Two::find(first.text).is_some() {
        "no statement begins with \"{}\"; it stands in a \"let\": let X = A {} B"
    } else {
        return Ok(None);
    };
    let shown = Piece::Shown(first.text);
    told_two(alloc, first.place, template, shown, shown)
}

/// Whether a line begins as a part of a text or a list is written in front of its values.
fn is_part(first: Word<'_>, behind: &[Word<'_>]) -> bool {
    if !first.is("from") {
        return false;
    }
    for word in behind {
        if word.is("import") {
            return false;
        }
    }
    true
}

/// A word of other languages that begins a line.
fn foreign_mistake(alloc: Global, first: Word<'_>, behind: &[Word<'_>]) -> Found {
    let front = front_of(first.text);
    if is_part(first, behind) {
        return Ok(None);
    }
    match mend_in(&FIRST, front) {
        Some(mend) => told_two(
            alloc,
            first.place,
            "no statement begins with \"{}\"; {}",
            Piece::Shown(front),
            Piece::Words(mend),
        ),
        None => Ok(None),
    }
}

/// A word that begins no line, and is none of other languages.
fn unknown_mistake(alloc: Global, first: Word<'_>) -> Found {
    let word = first.text;
    let (template, mend) = if let Some(meant) = near_word(word) {
        let template = "no statement begins with \"{}\"; \"{}\" does";
        (template, Piece::Shown(meant.word()))
    } else if word.contains(&b'(') {
        let text = "there are no parentheses; \"call X P A ..\" calls a procedure";
        (text, Piece::Nothing)
    } else {
        let template =
            "no statement begins with \"{}\"; there are let if else while try catch end call return stop throw label unlabel taint lower relabel newref read write newvar fullvar take put fork spawn wait send";
        (template, Piece::Nothing)
    };
    told_two(alloc, first.place, template, Piece::Shown(word), mend)
}

/// A method of a value.
fn first_method(alloc: Global, first: Word<'_>) -> Found {
    let at = place_of_byte(first.text, b'.').unwrap_or(0);
    method_mistake(alloc, first.text.get(..at).unwrap_or(b""), first)
}

/// What is wrong with a line whose first word begins none.
pub(crate) fn first_mistake(alloc: Global, first: Word<'_>, behind: &[Word<'_>]) -> Found {
    if is_comment(first.text) {
        return told(alloc, first.place, "a comment begins with \"#\"");
    }
    if let Some(meant) = same_word(first.text) {
        let template = "\"{}\" has upper-case letters; write \"{}\"";
        let meant = Piece::Shown(meant.word());
        return told_two(
            alloc,
            first.place,
            template,
            Piece::Shown(first.text),
            meant,
        );
    }
    if let Some(mistake) = brace_mistake(alloc, first, behind)? {
        return Ok(Some(mistake));
    }
    if let Some(mistake) = bound_mistake(alloc, first, behind)? {
        return Ok(Some(mistake));
    }
    if let Some(mistake) = foreign_mistake(alloc, first, behind)? {
        return Ok(Some(mistake));
    }
    if let Some(mistake) = operator_mistake(alloc, first)? {
        return Ok(Some(mistake));
    }
    if let Some(mistake) = first_method(alloc, first)? {
        return Ok(Some(mistake));
    }
    unknown_mistake(alloc, first)
}
