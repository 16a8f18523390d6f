//! Histories and views that stop at a line.

use crate::program::Program;
use lio_clauses::NoMemory;
use lio_messages_hints::{Message, Piece};
use std::alloc::Global;

/// A line at which a history or a view stops, with its end: what stands there, where it isn't
/// missing, and what should or could, where that is known.
#[derive(Drop)]
pub struct Stop {
    found: Option<Vec<u8>>,
    expected: Option<Vec<u8>>,
}

/// The line of bytes with a number, from 1, with its line end, if it is there.
fn line_at(bytes: &[u8], number: u32) -> Option<&[u8]> {
    let mut line = 1u32;
    let mut from = 0;
    for (at, byte) in bytes.iter().enumerate() {
        if *byte != b'\n' {
            continue;
        }
        if line == number {
            return bytes.get(from..=at);
        }
        line = line.saturating_add(1);
        from = at + 1;
    }
    match bytes.get(from..) {
        Some([]) => None,
        rest if line == number => rest,
        _ => None,
    }
}

/// The stop of bytes at a line, from 1, where this should or could stand, if that is known.
pub fn stop_at(
    alloc: Global,
    bytes: &[u8],
    line: u32,
    expected: Option<Vec<u8>>,
) -> Result<Stop, NoMemory> {
    let found = match line_at(bytes, line) {
        Some(found) => Some(Vec::from_slice(alloc, found)?),
        None => None,
    };
    Ok(Stop { found, expected })
}

/// How many bytes of a line stand before a difference that is shown.
const BEFORE_DIFFERENCE: usize = 60;

/// A line without its end, and whether it has one.
fn without_end(line: &[u8]) -> (&[u8], bool) {
    match line {
        [before @ .., b'\n'] => (before, true),
        _ => (line, false),
    }
}

/// From where two lines are shown, so that their first difference is.
fn shown_from(found: &[u8], expected: &[u8]) -> usize {
    let mut same = 0usize;
    for (one, other) in found.iter().zip(expected.iter()) {
        if one != other {
            break;
        }
        same = same.saturating_add(1);
    }
    same.saturating_sub(BEFORE_DIFFERENCE)
}

/// Tells of bytes that are too many.
pub(crate) fn tell_size(message: &mut Message, program: Program, file: &str) {
    message.words(file);
    message.words(match program {
        Program::Observer => ": a view has at most 268435456 bytes",
        _ => ": a history has a line for each turn of the run, and at most 268435456 bytes",
    });
}

/// Tells of a view that stops at a line of which nothing is known.
pub(crate) fn tell_line(message: &mut Message, program: Program, file: &str, line: u32) {
    if program != Program::Observer {
        tell_size(message, program, file);
        return;
    }
    message.fill(
        "{}:{}: this isn't the line of a turn that you can see there, or it is missing",
        Piece::Words(file),
        Piece::Number(u64::from(line)),
        Piece::Nothing,
    );
}

/// What is wrong with a line of a history, which has an end or not.
fn history_mistake(found: &[u8], has_end: bool) -> &'static str {
    match (found, has_end) {
        ([], true) => "a line is missing, or is empty",
        (_, false) => "the line has no line end",
        _ => {
            "this isn't the line of the run's next turn; give the policy, the script and the inputs of the run that it records"
        }
    }
}

/// What is wrong with a line of a view, which has an end or not; the line that could stand there
/// may be the same but for a content.
fn view_mistake(found: &[u8], has_end: bool, expected: Option<&[u8]>) -> &'static str {
    match (found, has_end) {
        ([], true) => {
            "a line is missing, or is empty, though a task can take a turn that you see; ask for the whole view"
        }
        (_, false) => "the line has no line end; ask for the whole view",
        _ if expected == Some(found) => {
            "the turn is told without the content that it releases to you; ask for the view at your label, by `--observer`"
        }
        _ => {
            "this isn't the line of a turn that you can see there; give the policy, the script and your inputs as they were in the run, and your own label; else the view isn't that of a run"
        }
    }
}

/// Writes a part of a line behind a word.
fn show_line(message: &mut Message, word: &str, line: &[u8], from: usize) {
    let template = if from > 0 {
        "\n  {} | ..{}"
    } else {
        "\n  {} | {}"
    };
    let shown = Piece::Shown(line.get(from..).unwrap_or(b""));
    message.fill(template, Piece::Words(word), shown, Piece::Nothing);
}

/// Tells of a history or a view that stops at a line: what stands there, and what should or could.
pub(crate) fn tell_stop(
    message: &mut Message,
    program: Program,
    file: &str,
    line: u32,
    stop: &Stop,
) {
    let (found, has_end) = match &stop.found {
        Some(found) => without_end(found.as_slice()),
        None => (b"".as_slice(), true),
    };
    let expected = match &stop.expected {
        Some(expected) => Some(without_end(expected.as_slice()).0),
        None => None,
    };
    let mistake = match program {
        Program::Observer => view_mistake(found, has_end, expected),
        _ => history_mistake(found, has_end),
    };
    let number = Piece::Number(u64::from(line));
    message.fill(
        "{}:{}: {}",
        Piece::Words(file),
        number,
        Piece::Words(mistake),
    );
    let from = shown_from(found, expected.unwrap_or(b""));
    show_line(message, "found   ", found, from);
    match (expected, program) {
        (Some(expected), _) => show_line(message, "expected", expected, from),
        (None, Program::Observer) => message.words("\n  no turn of its task can be taken there"),
        (None, _) => message.words("\n  no turn that it shows can be taken there"),
    }
}
