//! What the words name, and what is printed of words that give no command.

mod futures;
mod host;
mod observer;
mod questions;

use crate::program::Program;
pub use crate::words::futures::futures_words;
use crate::words::futures::tell_futures_words;
use crate::words::host::tell_host_words;
use crate::words::observer::tell_observer_words;
use crate::words::questions::tell_question_words;
use lio_front::{Command, Mode, Source, read_command};
use lio_messages_hints::{Message, Mistake, Piece};
use std::str;

/// The names of the files, as the words give them; what they are, where they give none.
#[derive(Clone, Copy)]
pub(crate) struct FileNames<'w> {
    /// Whether the words name the files of the policy and of the script.
    pub are_given: bool,
    pub policy: &'w str,
    pub script: &'w str,
    /// The history that is taken again, or the view that is checked.
    pub record: Option<&'w str>,
}

/// Bytes as they are shown.
pub(crate) fn text_of(bytes: &[u8]) -> &str {
    str::from_utf8(bytes).unwrap_or("..")
}

/// The names where the words give none, but for those that a history or a view has.
fn no_names<'w>(policy: &'static str, script: &'static str) -> FileNames<'w> {
    FileNames {
        are_given: false,
        policy,
        script,
        record: None,
    }
}

/// The names that a command of the host gives.
fn names_of(command: Command<'_>) -> FileNames<'_> {
    let mut names = no_names("policy", "script");
    if let Source::Files(policy, script) = command.source {
        names.are_given = true;
        names.policy = text_of(policy);
        names.script = text_of(script);
    }
    if let Mode::Replay(file) = command.mode {
        names.record = Some(text_of(file));
    }
    names
}

/// The names of the files that the words of a program give.
pub(crate) fn file_names(program: Program, words: &[String]) -> FileNames<'_> {
    match (program, words) {
        (Program::Host, _) => match read_command(words) {
            Some(command) => names_of(command),
            None => no_names("policy", "script"),
        },
        (Program::Futures, [policy, script] | [policy, script, _, _]) => FileNames {
            are_given: true,
            policy: policy.as_str(),
            script: script.as_str(),
            record: None,
        },
        (Program::Observer, [policy, script, view, _]) => FileNames {
            are_given: true,
            policy: policy.as_str(),
            script: script.as_str(),
            record: Some(view.as_str()),
        },
        (Program::Questions, [explain, policy, ..]) if explain.as_str() == "explain" => FileNames {
            are_given: true,
            policy: policy.as_str(),
            script: "",
            record: None,
        },
        (Program::Questions, [_, policy, script]) => FileNames {
            are_given: true,
            policy: policy.as_str(),
            script: script.as_str(),
            record: None,
        },
        (Program::Questions, [_, policy, script, history]) => FileNames {
            are_given: true,
            policy: policy.as_str(),
            script: script.as_str(),
            record: Some(history.as_str()),
        },
        _ => no_names("policy", "script"),
    }
}

/// The name of the script's file, where the words of the host name one.
pub fn script_name(words: &[String]) -> Option<&str> {
    let names = file_names(Program::Host, words);
    if names.are_given {
        Some(names.script)
    } else {
        None
    }
}

/// The text of the observer's label, where the words of a program have one.
pub(crate) fn label_of(program: Program, words: &[String]) -> Option<&[u8]> {
    match (program, words) {
        (Program::Host, _) => {
            let watch = read_command(words)?.view?;
            Some(watch.label)
        }
        (Program::Futures | Program::Observer, [_, _, _, label]) => Some(label.as_bytes()),
        _ => None,
    }
}

/// Tells what is wrong with the text of the observer's label.
pub(crate) fn tell_wrong_label(message: &mut Message, label: &[u8], found: &Mistake) {
    message.fill(
        "\"{}\" is no label over the policy's principals: at byte {}, {}",
        Piece::Shown(label),
        Piece::Number(found.place as u64),
        Piece::Words(found.text.as_str()),
    );
}

/// Tells of a word that is to be a label, and is none.
fn tell_label(message: &mut Message, label: &str) {
    message.words("\"");
    message.bytes(label.as_bytes());
    message.words(
        "\" is no label over the policy's principals: two formulas with `%%` between them, each of principals with `/\\`, `\\/` and parentheses, or `True` or `False`",
    );
}

/// Tells of words that give no command, or whose label isn't read.
pub(crate) fn tell_words(message: &mut Message, program: Program, words: &[String]) {
    match program {
        Program::Host => tell_host_words(message, words),
        Program::Futures => tell_futures_words(message, words),
        Program::Observer => tell_observer_words(message, words),
        Program::Questions => tell_question_words(message, words),
    }
}
