//! The line at which a history stops, for what is told of it.

use lio_ask_main::{Answer, Past};
use lio_clauses::NoMemory;
use lio_front::Status;
use lio_host_main::expected_line;
use lio_messages_refusals::{Stop, stop_at};
use std::alloc::Global;

/// The line at which the history stops, with what should stand there.
fn stop_in(alloc: Global, past: &Past, line: u32) -> Result<Stop, NoMemory> {
    let history = past.history.as_slice();
    let expected = expected_line(alloc, &past.job, history, line)?;
    stop_at(alloc, history, line, expected)
}

/// The line at which a history stops, where the answer is that it does.
pub(crate) fn stop_of(alloc: Global, answer: &Answer, past: &Option<Past>) -> Option<Stop> {
    match (answer, past) {
        (Answer::Plain(Status::NotARun(line)), Some(past)) if *line > 0 => {
            stop_in(alloc, past, *line).ok()
        }
        _ => None,
    }
}
