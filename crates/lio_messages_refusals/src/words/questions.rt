//! The words of the answers to questions.

use lio_messages_hints::{Message, Piece};

/// What the word at a place names, from 0, behind the first.
fn named(place: usize) -> Piece<'static> {
    Piece::Words(match place {
        1 => "the policy's file",
        2 => "the script's file",
        _ => "the history's file",
    })
}

/// How many words a question has that begins with a word, if one does.
fn count_of(first: &str) -> Option<usize> {
    match first {
        "explain" => Some(2),
        "check" => Some(3),
        "audit" | "lines" => Some(4),
        "help" | "version" => Some(1),
        _ => None,
    }
}

/// Tells of a first word with which no question begins.
fn tell_first(message: &mut Message, first: &str) {
    let template = if first.starts_with("-") {
        "\"{}\" begins with `-`; no option comes first, and the first word is `explain`, `check`, `audit`, `lines`, `help` or `version`"
    } else {
        "\"{}\" begins no question; the first word is `explain`, `check`, `audit`, `lines`, `help` or `version`"
    };
    message.fill(
        template,
        Piece::Shown(first.as_bytes()),
        Piece::Nothing,
        Piece::Nothing,
    );
}

/// Tells what is wrong with the first name that may not stand; answers whether one may not.
fn tell_name(message: &mut Message, words: &[String], count: usize) -> bool {
    for (place, word) in words.iter().take(count).enumerate().skip(1) {
        let word = word.as_str();
        if word.is_empty() {
            let template = "the word for {} is empty";
            message.fill(template, named(place), Piece::Nothing, Piece::Nothing);
            return true;
        }
        if word.starts_with("-") {
            let template =
                "\"{}\" stands for {}, and begins with `-`; `./` before the name of a file helps";
            message.fill(
                template,
                Piece::Shown(word.as_bytes()),
                named(place),
                Piece::Nothing,
            );
            return true;
        }
    }
    false
}

/// Tells of words that are too few or too many for a question.
fn tell_count(message: &mut Message, words: &[String], first: &str, count: usize) {
    match words.get(count) {
        Some(word) if first == "explain" => {
            let template =
                "\"{}\" is one word too many; `explain POLICY` takes `--json` alone behind it";
            let last = words.get(3).unwrap_or(word);
            message.fill(
                template,
                Piece::Shown(last.as_bytes()),
                Piece::Nothing,
                Piece::Nothing,
            );
        }
        Some(word) => {
            let template = "\"{}\" is one word too many behind `{}`";
            let word = Piece::Shown(word.as_bytes());
            message.fill(template, word, Piece::Words(first), Piece::Nothing);
        }
        None => {
            let template = "{} is missing behind `{}`";
            let missing = named(words.len());
            message.fill(template, missing, Piece::Words(first), Piece::Nothing);
        }
    }
}

/// Tells of words that ask no question.
pub(crate) fn tell_question_words(message: &mut Message, words: &[String]) {
    let [first, ..] = words else {
        message.words("no word says what is asked, or a word isn't UTF-8");
        return;
    };
    let first = first.as_str();
    match count_of(first) {
        None => tell_first(message, first),
        Some(count) => {
            if !tell_name(message, words, count) {
                tell_count(message, words, first, count);
            }
        }
    }
}
