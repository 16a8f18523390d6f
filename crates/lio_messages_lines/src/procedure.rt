//! What is wrong with the first line of a procedure.
use crate::extra::late_comment;
use lio_messages_hints::{Found, Piece, Word, name_mistake, told, told_one};
use std::alloc::Global;

/// The most parameters of a procedure.
const MOST_PARAMETERS: usize = 8;

/// The place of the first parenthesis in a word, if there is one.
fn parenthesis(word: &[u8]) -> Option<usize> {
    for (at, byte) in word.iter().enumerate() {
        if *byte == b'(' {
            return Some(at);
        }
    }
    None
}

/// What is wrong with the words behind `proc`. `end` is how many bytes the line has.
pub(crate) fn procedure_mistake(alloc: Global, behind: &[Word<'_>], end: usize) -> Found {
    if behind.is_empty() {
        return told(
            alloc,
            end,
            "the name of the procedure is missing here: proc P X ..",
        );
    }
    for (i, word) in behind.iter().enumerate() {
        if word.text.starts_with(b"#") {
            return late_comment(alloc, *word);
        }
        if let Some(at) = parenthesis(word.text) {
            let text = "parameters stand behind the name, apart by blanks: proc main c x";
            return told(alloc, word.inside(at), text);
        }
        if i > MOST_PARAMETERS {
            let count = Piece::Number((behind.len() - 1) as u64);
            let template = "a procedure has at most 8 parameters; this one has {}";
            return told_one(alloc, word.place, template, count);
        }
        if let Some(mistake) = name_mistake(alloc, *word)? {
            return Ok(Some(mistake));
        }
    }
    Ok(None)
}
