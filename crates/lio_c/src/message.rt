//! What a program would print on standard error.

use lio_clauses::NoMemory;
use lio_front::Status;
use lio_host_main::{Outcome, expected_line};
use lio_messages_notes::{Source, notes_of};
use lio_messages_refusals::{Program, Stop, detail_of, refusal_text, script_name, stop_at};
use std::alloc::Global;

/// The bytes, where they were read; else none.
fn bytes_of(bytes: &Option<Vec<u8>>) -> &[u8] {
    match bytes {
        Some(bytes) => bytes.as_slice(),
        None => &[],
    }
}

/// The notes on a run of files, where there are any.
fn notes(alloc: Global, words: &[String], outcome: &Outcome) -> Result<String, NoMemory> {
    let Outcome {
        journal,
        job: Some(job),
        config: Some(config),
        texts,
        ..
    } = outcome
    else {
        return Ok(String::new(alloc));
    };
    let Some(name) = script_name(words) else {
        return Ok(String::new(alloc));
    };
    let text = bytes_of(&texts.script);
    notes_of(alloc, job, journal, config, Source { name, text })
}

/// The line at which the history that is taken again stops, where the answer is that it does.
fn stop_of(alloc: Global, outcome: &Outcome) -> Result<Option<Stop>, NoMemory> {
    match (&outcome.status, &outcome.job, &outcome.history) {
        (Status::NotARun(line), Some(job), Some(history)) if *line > 0 => {
            let expected = expected_line(alloc, job, history.as_slice(), *line)?;
            Ok(Some(stop_at(alloc, history.as_slice(), *line, expected)?))
        }
        _ => Ok(None),
    }
}

/// What the host would print of an outcome: what was refused, or what went wrong in the run.
pub(crate) fn message(
    alloc: Global,
    words: &[String],
    outcome: &Outcome,
) -> Result<String, NoMemory> {
    if let Status::Done = outcome.status {
        return notes(alloc, words, outcome);
    }
    let stop = stop_of(alloc, outcome)?;
    let (status, texts) = (&outcome.status, &outcome.texts);
    let detail = detail_of(alloc, Program::Host, words, status, None, texts, stop)?;
    let mut text = refusal_text(alloc, Program::Host, &outcome.status, words, &detail)?;
    text.push('\n')?;
    Ok(text)
}
