//! The notes on standard error.

use crate::notes::notes_text;
use crate::source::Source;
use crate::troubles::troubles_of;
use lio_clauses::NoMemory;
use lio_events::Journal;
use lio_start::Job;
use lio_task::Config;
use std::alloc::Global;

/// The notes on the run of a job that has this journal and ended with this configuration; no bytes
/// where all went well.
pub fn notes_of(
    alloc: Global,
    job: &Job,
    journal: &Journal,
    config: &Config,
    source: Source<'_>,
) -> Result<String, NoMemory> {
    let troubles = troubles_of(alloc, job, journal, config)?;
    if troubles.is_empty() {
        return Ok(String::new(alloc));
    }
    notes_text(alloc, job, journal, config, &troubles, source)
}

/// Says the notes on a run on standard error; nothing where no memory is left for them.
pub fn print_notes<R: AllocGlobal + Eprint>(
    rt: &R,
    job: &Job,
    journal: &Journal,
    config: &Config,
    source: Source<'_>,
) {
    if let Ok(notes) = notes_of(rt.alloc(), job, journal, config, source) {
        let _ = eprint!(rt; "{notes}");
    }
}
