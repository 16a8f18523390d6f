//! What is wrong with a label in a line.
use crate::label::label_text_mistake;
use crate::message::Piece;
use crate::mistake::{Found, told, told_one};
use crate::words::Word;
use lio_clauses::Names;
use std::alloc::Global;

/// What is wrong with a word that begins with `<`.
pub(crate) fn label_mistake(alloc: Global, names: &Names, word: Word<'_>) -> Found {
    let Some(behind) = word.text.strip_prefix(b"<") else {
        return Ok(None);
    };
    if behind.is_empty() || behind == b"=".as_slice() {
        let template =
            "\"{}\" stands where a value is wanted; a label begins at once behind its \"<\"";
        return told_one(alloc, word.place, template, Piece::Shown(word.text));
    }
    let Some(end) = behind.iter().position(|byte| *byte == b'>') else {
        return told(alloc, word.place, "the label that begins here has no \">\"");
    };
    let (inside, rest) = behind.split_at(end);
    if rest.len() > 1 {
        let place = word.inside(end.saturating_add(2));
        return told(alloc, place, "a blank stands behind a label");
    }
    label_text_mistake(alloc, names, word.inside(1), inside)
}
