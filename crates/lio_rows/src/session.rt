//! What a command finds from those before it, and which command does what.

use crate::refusal::{Answered, Refusal};
use crate::{audits, hints, logs, low, observers, policies, runs, scripts, tables, turns};
use lio_clauses::{Names, NoMemory};
use lio_rows_commands::Answer;
use lio_rows_fields::read_command;
use std::alloc::Global;

/// What the commands so far have made.
#[derive(Drop)]
pub struct Session {
    /// The list of principals.
    pub names: Names,
}

impl Session {
    /// A list without principals.
    pub fn new(alloc: Global) -> Result<Session, NoMemory> {
        Ok(Session {
            names: Names::new(alloc)?,
        })
    }

    /// What the command of a line answers.
    pub fn answer(&mut self, alloc: Global, line: &[u8]) -> Result<Answer, Refusal> {
        let command = read_command(alloc, line)?;
        let fields = command.fields.as_slice();
        if let Some(answer) = lio_rows_commands::answer(
            alloc,
            &mut self.names,
            command.word,
            fields,
        ) {
            return answer.map_err(Refusal::from);
        }
        match answer(alloc, &self.names, command.word, fields) {
            Some(answer) => answer,
            None => Err(Refusal::from(lio_rows_commands::Refusal::NoCommand)),
        }
    }
}

/// What a command answers that runs something, or reads what can be run, if the word and the number
/// of fields are those of one.
fn answer(alloc: Global, names: &Names, word: &str, fields: &[Vec<u8>]) -> Answered {
    if let Some(answer) = scripts::answer(alloc, names, word, fields) {
        return Some(answer);
    }
    if let Some(answer) = hints::answer(alloc, names, word, fields) {
        return Some(answer);
    }
    if let Some(answer) = policies::answer(alloc, word, fields) {
        return Some(answer);
    }
    if let Some(answer) = turns::answer(alloc, word, fields) {
        return Some(answer);
    }
    if let Some(answer) = logs::answer(alloc, word, fields) {
        return Some(answer);
    }
    if let Some(answer) = tables::answer(alloc, word, fields) {
        return Some(answer);
    }
    if let Some(answer) = audits::answer(alloc, word, fields) {
        return Some(answer);
    }
    if let Some(answer) = low::answer(alloc, word, fields) {
        return Some(answer);
    }
    if let Some(answer) = observers::answer(alloc, word, fields) {
        return Some(answer);
    }
    runs::answer(alloc, names, word, fields)
}
