//! The words of the host over futures.

use crate::words::tell_label;
use lio_clauses::NoMemory;
use lio_messages_hints::{Message, Piece};
use std::alloc::Global;

/// The words with which the host does the same.
pub fn futures_words(alloc: Global, words: &[String]) -> Result<Vec<String>, NoMemory> {
    let mut host = Vec::new(alloc);
    for (place, word) in words.iter().enumerate() {
        match place {
            2 => host.push(String::from_str(alloc, "--view")?)?,
            3 => host.push(String::from_str(alloc, "--observer")?)?,
            _ => {}
        }
        host.push(word.clone()?)?;
    }
    Ok(host)
}

/// Tells of words that give no command, or whose label isn't read.
pub(crate) fn tell_futures_words(message: &mut Message, words: &[String]) {
    for word in words {
        let word = word.as_str();
        if word.is_empty() {
            message.words("a word is empty");
            return;
        }
        if word.starts_with("-") {
            let template =
                "\"{}\" begins with `-`; there are no options, and `./` before the name of a file helps";
            message.fill(
                template,
                Piece::Shown(word.as_bytes()),
                Piece::Nothing,
                Piece::Nothing,
            );
            return;
        }
    }
    match words {
        [_, _, _, label] => tell_label(message, label.as_str()),
        [] => message.words(
            "there are to be two words or four; there is none, or one that isn't UTF-8",
        ),
        _ => message.words("there are to be two words or four"),
    }
}
