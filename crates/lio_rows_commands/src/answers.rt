//! What a command answers, and how it is written.

use crate::refusal::Refusal;
use lio_rows_fields::{Words, escape};
use std::alloc::Global;
use std::io;
use std::io::Write;

/// What a command answers where nothing refuses.
#[derive(Drop)]
pub enum Answer {
    /// The text of a value.
    Text(Vec<u8>),
    Truth(bool),
    Number(u32),
}

/// What is answered where the command is one of a group; none where it is no command of the group.
pub type Answered = Option<Result<Answer, Refusal>>;

impl Answer {
    /// Writes the answer, without a line end.
    pub fn write<W: Write>(&self, alloc: Global, output: &mut W) -> io::Result<()> {
        match self {
            Answer::Text(text) => output.write_all(escape(alloc, text.as_slice())?.as_slice()),
            Answer::Truth(flag) => write!(output, "{flag}"),
            Answer::Number(number) => write!(output, "{number}"),
        }
    }
}

/// The answer of a command, if no field is left.
pub(crate) fn finished(answer: Result<Answer, Refusal>, words: &Words) -> Result<Answer, Refusal> {
    let answer = answer?;
    if words.is_empty() {
        Ok(answer)
    } else {
        Err(Refusal::NoCommand)
    }
}
