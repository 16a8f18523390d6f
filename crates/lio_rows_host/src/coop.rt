//! Cases of the host over futures, each beside what the host does by the words that ask it for the
//! same.

use crate::cases::{Case, Setting};
use crate::found::Found;
use crate::says::{notes, says};
use crate::store::{say_of, store_of};
use lio_async_main::{CoopOutcome, coop_main};
use lio_clauses::NoMemory;
use lio_events::Journal;
use lio_front::Status;
use lio_host_main::{Outcome, host_main};
use lio_messages_refusals::{Program, futures_words};
use lio_outside::{MemSay, MemStore};
use lio_workers::OpenGate;
use std::alloc::Global;
use std::random::RandomSource;
use std::sync::Wait;
use std::thread::Threads;

/// The words with which the host does the same, and writes the history where a case speaks of the
/// journal.
fn words_of_host(
    alloc: Global,
    case: &Case<'_>,
    words: &[String],
) -> Result<Vec<String>, NoMemory> {
    let mut host = futures_words(alloc, words)?;
    if case.part("journal").is_some() {
        host.push(String::from_str(alloc, "--history")?)?;
        host.push(String::from_str(alloc, "h")?)?;
    }
    Ok(host)
}

/// What the host answers, where it isn't this answer with this journal.
fn otherwise(
    alloc: Global,
    status: &Status,
    journal: &Journal,
    outcome: &Outcome,
) -> Result<Option<String>, NoMemory> {
    let answer = &outcome.status;
    if answer == status && outcome.journal.entries() == journal.entries() {
        return Ok(None);
    }
    Ok(Some(format!(in alloc; "{answer}")?))
}

/// Adds what the host does by the words that ask it for the same, beside an answer and a journal;
/// nothing where the words give no command.
fn add_host<R: AllocGlobal + Threads + Wait + Sync>(
    rt: &R,
    case: &Case<'_>,
    setting: Setting<'_>,
    words: &[String],
    status: &Status,
    journal: &Journal,
    found: &mut Found,
) -> Result<(), NoMemory> {
    if let Status::BadWords = status {
        return Ok(());
    }
    let alloc = rt.alloc();
    let host = words_of_host(alloc, case, words)?;
    let mut say = say_of(alloc, case)?;
    let mut store = store_of(alloc, case, setting)?;
    let outcome = host_main(rt, alloc, host.as_slice(), &mut store, &mut say, &OpenGate);
    let otherwise = otherwise(alloc, status, journal, &outcome);
    drop(outcome);
    found.host = otherwise?;
    found.journal = Vec::from_slice(alloc, store.get(b"h").unwrap_or(b""))?;
    Ok(())
}

/// What an outcome comes to, beside what was said.
fn found_of(
    alloc: Global,
    case: &Case<'_>,
    setting: Setting<'_>,
    outcome: &CoopOutcome,
    words: &[String],
    say: &MemSay,
) -> Result<Found, NoMemory> {
    let status = &outcome.status;
    let mut found = Found::new(alloc, format!(in alloc; "{status}")?, status.number());
    let texts = &outcome.texts;
    found.says = says(alloc, case, Program::Futures, status, words, texts, None)?;
    found.said = Vec::from_slice(alloc, say.said())?;
    found.may_say = matches!(status, Status::Done);
    found.entries = outcome.journal.entries().len() as u64;
    if let (Some(job), Some(config)) = (&outcome.job, &outcome.config) {
        found.notes = notes(alloc, case, setting, job, &outcome.journal, config)?;
    }
    Ok(found)
}

/// What the host over futures does with a case over a store.
pub(crate) fn run<R>(
    rt: &R,
    case: &Case<'_>,
    setting: Setting<'_>,
    words: &[String],
    store: &mut MemStore,
) -> Result<Found, NoMemory>
where
    R: AllocGlobal + RandomSource + Threads + Wait + Sync,
{
    let alloc = rt.alloc();
    let mut say = say_of(alloc, case)?;
    let outcome = coop_main(rt, alloc, words, store, &mut say);
    let mut found = found_of(alloc, case, setting, &outcome, words, &say);
    let CoopOutcome {
        status,
        journal,
        ..
    } = &outcome;
    let added = match &mut found {
        Ok(found) => add_host(rt, case, setting, words, status, journal, found),
        Err(NoMemory) => Err(NoMemory),
    };
    drop(outcome);
    added?;
    found
}
