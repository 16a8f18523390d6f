//! Cases of the host.

use crate::cases::{Case, Setting};
use crate::found::{Found, GateTold};
use crate::gate::NotingGate;
use crate::says::{notes, says};
use crate::store::{lines_of, say_of};
use lio_clauses::NoMemory;
use lio_front::Status;
use lio_host_main::{Outcome, expected_line, host_main};
use lio_messages_refusals::{Program, Stop, stop_at};
use lio_outside::{MemSay, MemStore};
use lio_start::Job;
use lio_workers::OpenGate;
use std::alloc::Global;
use std::sync::Wait;
use std::thread::Threads;

/// The line at which a history stops, where the answer is that it does.
fn stop_of(
    alloc: Global,
    status: &Status,
    job: &Option<Job>,
    history: &Option<Vec<u8>>,
) -> Result<Option<Stop>, NoMemory> {
    match (status, job, history) {
        (Status::NotARun(line), Some(job), Some(history)) if *line > 0 => {
            let expected = expected_line(alloc, job, history.as_slice(), *line)?;
            Ok(Some(stop_at(alloc, history.as_slice(), *line, expected)?))
        }
        _ => Ok(None),
    }
}

/// What an outcome comes to, beside what was said.
fn found_of(
    alloc: Global,
    case: &Case<'_>,
    setting: Setting<'_>,
    outcome: &Outcome,
    words: &[String],
    say: &MemSay,
) -> Result<Found, NoMemory> {
    let status = &outcome.status;
    let stop = stop_of(alloc, status, &outcome.job, &outcome.history)?;
    let mut found = Found::new(alloc, format!(in alloc; "{status}")?, status.number());
    let texts = &outcome.texts;
    found.says = says(alloc, case, Program::Host, status, words, texts, stop)?;
    found.said = Vec::from_slice(alloc, say.said())?;
    found.entries = outcome.journal.entries().len() as u64;
    if let Status::Done = status {
        found.may_say = true;
        if let (Some(job), Some(config)) = (&outcome.job, &outcome.config) {
            found.notes = notes(alloc, case, setting, job, &outcome.journal, config)?;
        }
    }
    Ok(found)
}

/// What a gate was told.
fn told_of(alloc: Global, gate: &NotingGate) -> Result<GateTold, NoMemory> {
    let turns = gate.turns();
    let once = if gate.has_each() {
        ""
    } else {
        ", not each once"
    };
    let mut tasks = String::new(alloc);
    for k in 0..64 {
        if gate.has_task(k) {
            let blank = if tasks.is_empty() { "" } else { " " };
            tasks.push_str(format!(in alloc; "{blank}{k}")?.as_str())?;
        }
    }
    Ok(GateTold {
        turns: format!(in alloc; "{turns}{once}")?,
        tasks,
        comes: !gate.gave_up(),
    })
}

/// What else a second call says than the first one said, if it says something else.
fn otherwise(
    alloc: Global,
    outcome: &Outcome,
    say: &MemSay,
    said: &[u8],
) -> Result<Option<String>, NoMemory> {
    let status = &outcome.status;
    match status {
        Status::Done if say.said() == said => Ok(None),
        Status::Done => Ok(Some(String::from_str(alloc, "another summary")?)),
        _ => Ok(Some(format!(in alloc; "{status}")?)),
    }
}

/// What else than this a second call says, with these words over the same store.
fn again<R: AllocGlobal + Threads + Wait + Sync>(
    rt: &R,
    words: &str,
    store: &mut MemStore,
    said: &[u8],
) -> Result<Option<String>, NoMemory> {
    let alloc = rt.alloc();
    let words = lines_of(alloc, words)?;
    let mut say = MemSay::new(alloc, Vec::new(alloc));
    let outcome = host_main(rt, alloc, words.as_slice(), store, &mut say, &OpenGate);
    let otherwise = otherwise(alloc, &outcome, &say, said);
    drop(outcome);
    otherwise
}

/// What the first call of the host does with a case over a store.
fn run_once<R: AllocGlobal + Threads + Wait + Sync>(
    rt: &R,
    case: &Case<'_>,
    setting: Setting<'_>,
    words: &[String],
    store: &mut MemStore,
) -> Result<Found, NoMemory> {
    let alloc = rt.alloc();
    let mut say = say_of(alloc, case)?;
    let gate = NotingGate::new(case.number("held").unwrap_or(0));
    let outcome = host_main(rt, alloc, words, store, &mut say, &gate);
    let found = found_of(alloc, case, setting, &outcome, words, &say);
    drop(outcome);
    let mut found = found?;
    found.gate = told_of(alloc, &gate)?;
    Ok(found)
}

/// What the host does with a case over a store.
pub(crate) fn run<R: AllocGlobal + Threads + Wait + Sync>(
    rt: &R,
    case: &Case<'_>,
    setting: Setting<'_>,
    words: &[String],
    store: &mut MemStore,
) -> Result<Found, NoMemory> {
    let mut found = run_once(rt, case, setting, words, store)?;
    if let Some(words) = case.text("again") {
        found.again = again(rt, words, store, found.said.as_slice())?;
    }
    Ok(found)
}
