//! Cases of questions.

use crate::cases::Case;
use crate::found::Found;
use crate::says::says;
use crate::store::say_of;
use lio_ask_main::{Answer, Asked, Past, ask};
use lio_clauses::NoMemory;
use lio_front::{Status, Texts};
use lio_host_main::expected_line;
use lio_messages_refusals::{Program, Stop, stop_at};
use lio_outside::{MemSay, MemStore};
use std::alloc::Global;

/// The line at which a history stops, where the answer is that it does.
fn stop_of(alloc: Global, status: &Status, past: &Option<Past>) -> Result<Option<Stop>, NoMemory> {
    match (status, past) {
        (Status::NotARun(line), Some(past)) if *line > 0 => {
            let history = past.history.as_slice();
            let expected = expected_line(alloc, &past.job, history, *line)?;
            Ok(Some(stop_at(alloc, history, *line, expected)?))
        }
        _ => Ok(None),
    }
}

/// What is printed of an answer.
fn printed(
    alloc: Global,
    case: &Case<'_>,
    words: &[String],
    answer: &Answer,
    texts: &Texts,
    past: &Option<Past>,
) -> Result<String, NoMemory> {
    match answer {
        Answer::Plain(status) => {
            let stop = stop_of(alloc, status, past)?;
            says(alloc, case, Program::Questions, status, words, texts, stop)
        }
        Answer::Troubled => Ok(String::new(alloc)),
    }
}

/// What an answer comes to.
fn found_of(alloc: Global, answer: &Answer, says: String, say: &MemSay) -> Result<Found, NoMemory> {
    let mut found = Found::new(alloc, format!(in alloc; "{answer}")?, answer.number());
    found.says = says;
    found.said = Vec::from_slice(alloc, say.said())?;
    Ok(found)
}

/// What the program that answers questions does with a case over a store.
pub(crate) fn run(
    alloc: Global,
    case: &Case<'_>,
    words: &[String],
    store: &mut MemStore,
) -> Result<Found, NoMemory> {
    let mut say = say_of(alloc, case)?;
    let Asked {
        answer,
        texts,
        past,
    } = ask(alloc, words, store, &mut say);
    let says = printed(alloc, case, words, &answer, &texts, &past)?;
    found_of(alloc, &answer, says, &say)
}
