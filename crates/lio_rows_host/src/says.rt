//! What is printed of an answer.

use crate::cases::{Case, Setting};
use lio_clauses::NoMemory;
use lio_events::Journal;
use lio_front::{Status, Texts};
use lio_messages_notes::{Source, notes_of};
use lio_messages_refusals::{Program, Stop, detail_of, refusal_text, trouble_text};
use lio_outside::Trouble;
use lio_start::Job;
use lio_task::Config;
use std::alloc::Global;
use std::io;

/// Why a call of the store failed, where a case says it.
fn why(alloc: Global, case: &Case<'_>, program: Program) -> Option<String> {
    let trouble = match (case.part("trouble"), case.part("same")) {
        (Some(part), _) => {
            let number = part.about.parse::<i32>().unwrap_or(0);
            Trouble::System(io::Error::from_raw_os_error(number))
        }
        (None, Some(part)) => Trouble::SameFile(part.about.as_bytes()),
        (None, None) => return None,
    };
    trouble_text(alloc, program, trouble).ok()
}

/// What a program prints of an answer.
pub(crate) fn says(
    alloc: Global,
    case: &Case<'_>,
    program: Program,
    status: &Status,
    words: &[String],
    texts: &Texts,
    stop: Option<Stop>,
) -> Result<String, NoMemory> {
    let why = why(alloc, case, program);
    let detail = detail_of(alloc, program, words, status, why, texts, stop)?;
    refusal_text(alloc, program, status, words, &detail)
}

/// The notes on a run, where a case says them.
pub(crate) fn notes(
    alloc: Global,
    case: &Case<'_>,
    setting: Setting<'_>,
    job: &Job,
    journal: &Journal,
    config: &Config,
) -> Result<String, NoMemory> {
    if case.part("notes").is_none() {
        return Ok(String::new(alloc));
    }
    let source = Source {
        name: "s.lio",
        text: setting.script.as_bytes(),
    };
    notes_of(alloc, job, journal, config, source)
}
