//! The line at which a view stops, for what is told of it.

use lio_clauses::NoMemory;
use lio_messages_refusals::{Stop, stop_at};
use lio_observe_main::{Claim, ObserveStatus, expected_line};
use std::alloc::Global;

/// The line at which the view of a claim stops, with what could stand there.
fn stop_in(alloc: Global, claim: &Claim, line: u32) -> Result<Stop, NoMemory> {
    let expected = expected_line(alloc, claim, line)?;
    stop_at(alloc, claim.view.as_slice(), line, expected)
}

/// The line at which a view stops, where the answer is that it does.
pub(crate) fn stop_of(
    alloc: Global,
    status: &ObserveStatus,
    claim: &Option<Claim>,
) -> Option<Stop> {
    match (status, claim) {
        (ObserveStatus::NotAView(line), Some(claim)) if *line > 0 => {
            stop_in(alloc, claim, *line).ok()
        }
        _ => None,
    }
}
