//! The words of the observer's check.

use crate::words::tell_label;
use lio_messages_hints::{Message, Piece};

/// How many words there are to be.
const COUNT: usize = 4;

/// What the word at a place names, from 0.
fn named(place: usize) -> Piece<'static> {
    Piece::Words(match place {
        0 => "the policy's file",
        1 => "the script's file",
        2 => "the view's file",
        _ => "the observer's label",
    })
}

/// Tells what is wrong with the first of the words that may not stand; answers whether one may not.
fn tell_word(message: &mut Message, words: &[String]) -> bool {
    for (place, word) in words.iter().take(COUNT).enumerate() {
        let word = word.as_str();
        if word.is_empty() {
            let template = "the word for {} is empty";
            message.fill(template, named(place), Piece::Nothing, Piece::Nothing);
            return true;
        }
        if word.starts_with("-") {
            let template =
                "\"{}\" stands for {}, and begins with `-`; there are no options, and `./` before the name of a file helps";
            message.fill(
                template,
                Piece::Shown(word.as_bytes()),
                named(place),
                Piece::Nothing,
            );
            return true;
        }
    }
    false
}

/// Tells of words that are too few or too many, or whose label isn't read.
fn tell_count(message: &mut Message, words: &[String]) {
    match words {
        [_, _, _, label] => tell_label(message, label.as_str()),
        [_, _, _, _, word, ..] => message.fill(
            "\"{}\" is a fifth word; there are to be four, and a label with blanks is put in quotes",
            Piece::Shown(word.as_bytes()),
            Piece::Nothing,
            Piece::Nothing,
        ),
        [] => message.words("there are to be four words; there is none, or one that isn't UTF-8"),
        _ => {
            let template = "there are to be four words, and {} is missing";
            message.fill(template, named(words.len()), Piece::Nothing, Piece::Nothing);
        }
    }
}

/// Tells of words that give no command, or whose label isn't read.
pub(crate) fn tell_observer_words(message: &mut Message, words: &[String]) {
    if !tell_word(message, words) {
        tell_count(message, words);
    }
}
