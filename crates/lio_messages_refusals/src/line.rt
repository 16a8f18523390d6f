//! Scripts that break a rule.

use crate::rules::script_rule;
use lio_clauses::NoMemory;
use lio_messages_hints::{Message, Mistake, Piece};
use lio_messages_lines::{line_at, script_mistake};
use lio_policy::Policy;
use lio_values::Text;
use std::alloc::Global;

/// A line of a script that breaks a rule: its text, and what is wrong with it.
#[derive(Drop)]
pub struct WrongLine {
    text: Text,
    mistake: Option<Mistake>,
}

/// A line of a script that breaks a rule, under a policy.
pub(crate) fn wrong_line(
    alloc: Global,
    policy: &Policy,
    script: &[u8],
    number: u32,
    rule: u32,
) -> Result<WrongLine, NoMemory> {
    let mistake = script_mistake(alloc, &policy.names, script, number, rule)?;
    let text = Text::of(alloc, line_at(script, number))?;
    Ok(WrongLine { text, mistake })
}

/// How many columns bytes take, as they are shown.
fn columns(alloc: Global, bytes: &[u8]) -> usize {
    let mut shown = Message::new(alloc);
    shown.bytes(bytes);
    shown.len()
}

/// Writes so many blanks.
fn blanks(message: &mut Message, count: usize) {
    for _column in 0..count {
        message.words(" ");
    }
}

/// How many bytes of a line are shown before a place that lies far behind its beginning.
const AROUND: usize = 60;

/// The farthest place in a line that is shown from its beginning.
const FAR: usize = 120;

/// With how many blanks and tabs a line begins.
fn indentation(line: &[u8]) -> usize {
    for (at, byte) in line.iter().enumerate() {
        if !matches!(*byte, b' ' | b'\t') {
            return at;
        }
    }
    line.len()
}

/// Writes a line of a script, and a sign under a place of it: the part around the place, where that
/// is far from the beginning. A tab with which it begins is written as a blank.
fn mark(alloc: Global, message: &mut Message, line: &[u8], number: u32, place: usize) {
    message.words("\n");
    let before = message.len();
    let number = Piece::Number(u64::from(number));
    message.fill("  {} | ", number, Piece::Nothing, Piece::Nothing);
    let from = if place > FAR {
        message.words("..");
        place.saturating_sub(AROUND)
    } else {
        let first = indentation(line).min(place);
        blanks(message, first);
        first
    };
    let head = message.len().saturating_sub(before);
    message.bytes(line.get(from..).unwrap_or(line));
    message.words("\n");
    blanks(message, head);
    blanks(
        message,
        columns(alloc, line.get(from..place).unwrap_or(b"")),
    );
    message.words("^");
}

/// Tells of a script of which nothing but the rule that it breaks is known.
pub(crate) fn tell_script_rule(message: &mut Message, script: &str, number: u32, rule: u32) {
    let line = Piece::Number(u64::from(number));
    message.fill("{}:{}: ", Piece::Words(script), line, Piece::Nothing);
    message.words(script_rule(rule));
}

/// Tells of a script in which a line breaks a rule.
pub(crate) fn tell_script(
    alloc: Global,
    message: &mut Message,
    script: &str,
    number: u32,
    rule: u32,
    line: &WrongLine,
) {
    let line_number = Piece::Number(u64::from(number));
    let Some(mistake) = &line.mistake else {
        tell_script_rule(message, script, number, rule);
        let shown = Piece::Shown(line.text.bytes());
        message.fill("\n  {} | {}", line_number, shown, Piece::Nothing);
        return;
    };
    message.words(script);
    if number > 0 {
        let column = Piece::Number((mistake.place as u64).saturating_add(1));
        message.fill(":{}:{}", line_number, column, Piece::Nothing);
    }
    message.words(": ");
    message.words(mistake.text.as_str());
    if number > 0 {
        mark(alloc, message, line.text.bytes(), number, mistake.place);
    }
}
