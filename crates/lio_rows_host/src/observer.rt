//! Cases of the observer's check.

use crate::cases::Case;
use crate::found::Found;
use crate::says::says;
use crate::store::say_of;
use lio_clauses::NoMemory;
use lio_front::{Status, Texts};
use lio_messages_refusals::{Program, Stop, stop_at};
use lio_observe_main::{Claim, Observed, expected_line, observe_read};
use lio_outside::{MemSay, MemStore};
use std::alloc::Global;

/// The line at which a view stops, where the answer is that it does.
fn stop_of(
    alloc: Global,
    status: &Status,
    claim: &Option<Claim>,
) -> Result<Option<Stop>, NoMemory> {
    match (status, claim) {
        (Status::NotAView(line), Some(claim)) if *line > 0 => {
            let expected = expected_line(alloc, claim, *line)?;
            Ok(Some(stop_at(alloc, claim.view.as_slice(), *line, expected)?))
        }
        _ => Ok(None),
    }
}

/// What an answer comes to, beside what was said.
fn found_of(
    alloc: Global,
    case: &Case<'_>,
    status: &Status,
    words: &[String],
    texts: &Texts,
    stop: Option<Stop>,
    say: &MemSay,
) -> Result<Found, NoMemory> {
    let mut found = Found::new(alloc, format!(in alloc; "{status}")?, status.number());
    found.says = says(alloc, case, Program::Observer, status, words, texts, stop)?;
    found.said = Vec::from_slice(alloc, say.said())?;
    Ok(found)
}

/// What the observer's check does with a case over a store.
pub(crate) fn run(
    alloc: Global,
    case: &Case<'_>,
    words: &[String],
    store: &mut MemStore,
) -> Result<Found, NoMemory> {
    let mut say = say_of(alloc, case)?;
    let Observed { status, read } = observe_read(alloc, words, store, &mut say);
    let stop = stop_of(alloc, &status, &read.claim)?;
    found_of(alloc, case, &status, words, &read.texts, stop, &say)
}
