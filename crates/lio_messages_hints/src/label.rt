//! What is wrong with the text of a label or of a formula.
use crate::message::{Message, Piece};
use crate::mistake::{Found, Mistake, told, told_one};
use lio_clauses::{Formula, Names, NoMemory, TextFault};
use lio_labels::Label;
use std::alloc::Global;

/// What is wrong with a label's text, which stands at a place of the line.
pub fn label_text_mistake(alloc: Global, names: &Names, place: usize, text: &[u8]) -> Found {
    if !text.contains(&b'%') {
        let text =
            "a label has two parts, with %% between them: who may learn, and who vouches; \"True\" is no restriction";
        return told(alloc, place, text);
    }
    match Label::read(alloc, text, names) {
        Ok(_) => Ok(None),
        Err(fault) => fault_told(alloc, names, place, text, Part::Label, fault),
    }
}

/// What is wrong with a text that is to be a label over the names of principals; none where nothing
/// is found.
pub fn label_mistake(
    alloc: Global,
    names: &Names,
    text: &[u8],
) -> Result<Option<Mistake>, NoMemory> {
    label_text_mistake(alloc, names, 0, text)
}

/// What a text is to be.
#[derive(Clone, Copy, PartialEq, Eq)]
enum Part {
    Label,
    Formula,
}

/// What is wrong with the text of a formula, which stands at a place.
pub fn formula_text_mistake(alloc: Global, names: &Names, place: usize, text: &[u8]) -> Found {
    match Formula::read(alloc, text, names) {
        Ok(_) => Ok(None),
        Err(fault) => fault_told(alloc, names, place, text, Part::Formula, fault),
    }
}

/// The fault of a text, which stands at a place.
fn fault_told(
    alloc: Global,
    names: &Names,
    place: usize,
    text: &[u8],
    part: Part,
    fault: TextFault,
) -> Found {
    match fault {
        TextFault::NoMemory => Err(NoMemory),
        TextFault::Wide => told(alloc, place, "more than 64 clauses stand here"),
        TextFault::Unknown(at) => {
            let at = at as usize;
            no_principal(alloc, names, place, token_at(text, at), at)
        }
        TextFault::BadText(at) => {
            let at = at as usize;
            no_token(alloc, place, text, part, at)
        }
    }
}

/// Whether a byte belongs to a name or a constant.
fn is_of_word(byte: u8) -> bool {
    byte.is_ascii_alphanumeric() || byte == b'_'
}

/// The name or the sign that begins at a place of a label's text.
fn token_at(text: &[u8], at: usize) -> &[u8] {
    let rest = text.get(at..).unwrap_or(b"");
    let mut len = 0usize;
    for byte in rest {
        if !is_of_word(*byte) {
            break;
        }
        len = len.saturating_add(1);
    }
    match rest {
        [b'/', b'\\', ..] | [b'\\', b'/', ..] | [b'%', b'%', ..] => &rest[..2],
        _ => rest.get(..len.max(1)).unwrap_or(rest),
    }
}

/// What is told of a word of other languages that is no principal, if it is one.
fn foreign_word(token: &[u8]) -> Option<&'static str> {
    match token {
        b"true" | b"T" | b"TRUE" => Some("write \"True\""),
        b"false" | b"F" | b"FALSE" => Some("write \"False\""),
        b"not" => Some("there is no \"not\" in labels"),
        b"public" | b"everyone" | b"all" | b"any" | b"nobody" => {
            Some("\"{}\" is no principal of the policy; \"True\" is no restriction")
        }
        b"and" | b"or" => {
            Some("\"{}\" is no sign of labels; \"/\\\" is and, \"\\/\" in parentheses is or")
        }
        _ => None,
    }
}

/// A name of no principal.
fn no_principal(alloc: Global, names: &Names, place: usize, token: &[u8], at: usize) -> Found {
    if let Some(template) = foreign_word(token) {
        return told_one(
            alloc,
            place.saturating_add(at),
            template,
            Piece::Shown(token),
        );
    }
    let mut message = Message::new(alloc);
    let token = Piece::Shown(token);
    message.fill(
        "\"{}\" is no principal of the policy",
        token,
        Piece::Nothing,
        Piece::Nothing,
    );
    for number in 0..names.len() {
        message.words(if number == 0 { " (" } else { ", " });
        message.bytes(names.name(number));
    }
    message.words(if names.is_empty() {
        ", which has none"
    } else {
        ")"
    });
    let text = message.finish()?;
    let place = place.saturating_add(at);
    Ok(Some(Mistake { place, text }))
}

/// Whether a parenthesis is open at a place of a text.
fn is_open(text: &[u8], at: usize) -> bool {
    let mut is_open = false;
    for byte in text.get(..at).unwrap_or(b"") {
        match byte {
            b'(' => is_open = true,
            b')' => is_open = false,
            _ => {}
        }
    }
    is_open
}

/// Whether a name, a constant or a closed parenthesis stands before a place of a text.
fn is_behind_part(text: &[u8], at: usize) -> bool {
    for byte in text.get(..at).unwrap_or(b"").iter().rev() {
        if *byte != b' ' {
            return is_of_word(*byte) || *byte == b')';
        }
    }
    false
}

/// A token that may not stand at its place.
fn no_token(alloc: Global, place: usize, text: &[u8], part: Part, at: usize) -> Found {
    let token = token_at(text, at);
    let is_joining = matches!(token, b"and" | b"or");
    if (is_joining || !is_behind_part(text, at))
        && let Some(template) = foreign_word(token)
    {
        return told_one(
            alloc,
            place.saturating_add(at),
            template,
            Piece::Shown(token),
        );
    }
    let template = match token {
        [b'<'] | [b'>'] => "no \"<\" and no \">\" stand round a label here",
        [b')'] if !is_open(text, at) => "no \"(\" is open before this",
        [b'/', b'\\'] if is_open(text, at) => "parentheses hold \"\\/\" alone",
        [] | [b'%', b'%'] if is_open(text, at) && is_behind_part(text, at) => {
            "\")\" is missing before this"
        }
        [b'%', b'%'] if is_open(text, at) => "a principal is missing before this",
        [b'%', b'%'] if part == Part::Formula => {
            "a privilege is one formula, without \"%%\" and a second part"
        }
        [b'%', b'%'] if !is_behind_part(text, at) => {
            "a principal, \"True\" or \"False\" is missing before this"
        }
        [b'%'] if part == Part::Label => "\"%%\" stands between the two parts of a label",
        [] => "the label ends too early; a principal, \"True\" or \"False\" is missing",
        [b'\\', b'/'] => {
            "\"\\/\" stands between principals in parentheses alone, as in (alice \\/ bob)"
        }
        [b'%', b'%'] => "\"%%\" stands once in a label, between its two parts",
        [b'&' | b'|' | b'!', ..] => {
            "\"{}\" is no sign of labels; \"/\\\" is and, \"\\/\" in parentheses is or"
        }
        [b'A'..=b'Z', ..] => {
            "\"{}\" can't stand here; names of principals have no upper-case letters"
        }
        _ => {
            "\"{}\" can't stand here; principals are joined by \"/\\\", and by \"\\/\" in parentheses"
        }
    };
    told_one(
        alloc,
        place.saturating_add(at),
        template,
        Piece::Shown(token),
    )
}
