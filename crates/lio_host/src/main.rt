//! Runs a script under a policy over labelled inputs, writes what it sends to its channels, and
//! says a summary.
#![tactic(auto)]

ghost use Rattle.std.specs.Prelude.{◌≡◌, List};
ghost use Rattle.std.specs.Process.{exit_status};
ghost use Rattle.lio_values.specs.declared.entry.Entry.{Entry};
ghost use Rattle.lio_outside.specs.Call.{outside};
ghost use Rattle.lio_front.specs.Status.{exit_status as status_number};
ghost use Rattle.lio_host_main.specs.Answers.{EndsWith};
ghost use Rattle.lio_front.specs.Sorted.{bytes_of_words};

use lio_clauses::NoMemory;
use lio_front::Texts;
use lio_host_main::{HostStatus, Outcome, expected_line, host_main};
use lio_messages_notes::{Source, print_notes};
use lio_messages_refusals::{Program, Stop, print_refusal, script_name, stop_at};
use lio_outside::{Say, Store};
use lio_start::Job;
use lio_system::{RealSay, RealStore};
use lio_workers::{Gate, OpenGate};
use std::alloc::Global;
use std::process::ExitCode;
use std::sync::Wait;
use std::thread::Threads;
use std::{env, io, mem};

/// The words after the program's name. Words that can't be had as text are wrong words, as none
/// are.
fn words(rt: &HostRuntime) -> Result<Vec<String>, NoMemory> {
    match env::args(rt) {
        Ok(args) => Ok(args.skip(1).collect(rt.alloc())?),
        Err(error) if error.kind() == io::ErrorKind::OutOfMemory => Err(NoMemory),
        Err(_) => Ok(Vec::new(rt.alloc())),
    }
}

/// The exit status of an answer.
fn exit_code(status: &HostStatus) -> ExitCode
    ensures { exit_status result ≡ status_number status.now }
{
    ExitCode::from(status.number())
}

/// The bytes, where they were read; else none.
fn bytes_of(bytes: &Option<Vec<u8>>) -> &[u8] {
    match bytes {
        Some(bytes) => bytes.as_slice(),
        None => &[],
    }
}

/// Says on standard error what went wrong in a run of files, if anything did.
fn note<R: AllocGlobal + Eprint>(rt: &R, words: &[String], outcome: &Outcome) {
    let Outcome {
        journal,
        job: Some(job),
        config: Some(config),
        texts,
        ..
    } = outcome
    else {
        return;
    };
    let Some(name) = script_name(words) else {
        return;
    };
    let text = bytes_of(&texts.script);
    print_notes(rt, job, journal, config, Source { name, text });
}

/// The line at which a history stops, with what should stand there.
fn stop_in(alloc: Global, job: &Job, history: &[u8], line: u32) -> Result<Stop, NoMemory> {
    let expected = expected_line(alloc, job, history, line)?;
    stop_at(alloc, history, line, expected)
}

/// The line at which the history that is taken again stops, where the answer is that it does.
fn stop_of(
    alloc: Global,
    status: &HostStatus,
    job: &Option<Job>,
    history: &Option<Vec<u8>>,
) -> Option<Stop> {
    match (status, job, history) {
        (HostStatus::NotARun(line), Some(job), Some(history)) if *line > 0 => {
            stop_in(alloc, job, history.as_slice(), *line).ok()
        }
        _ => None,
    }
}

/// Says on standard error what was refused, or what went wrong in the run, if anything was or did.
fn report<R: AllocGlobal + Eprint, S: Store, W: Say>(
    rt: &R,
    words: &[String],
    store: &S,
    say: &W,
    outcome: &Outcome,
) {
    let Outcome {
        status,
        job,
        texts,
        history,
        ..
    } = outcome;
    if let HostStatus::Done = status {
        note(rt, words, outcome);
        return;
    }
    let stop = stop_of(rt.alloc(), status, job, history);
    print_refusal(rt, Program::Host, words, store, say, status, texts, stop);
}

/// Runs the script that the words name, says on standard error what was refused or went wrong, if
/// anything was or did, and gives the answer and its exit status.
fn respond<R, S: Store, W: Say, G: Gate + Sync>(
    rt: &R,
    words: &[String],
    store: &mut S,
    say: &mut W,
    gate: &G,
) -> (HostStatus, ExitCode)
where
    R: AllocGlobal + Eprint + Threads + Wait + Sync,
    ensures { EndsWith (λ (journal : List Entry). record {
      words = bytes_of_words words.now;
      before = outside S.holds S.faults W.said W.faults store.old say.old;
      after = outside S.holds S.faults W.said W.faults store.new say.new;
      journal = journal;
    }) result.0 (exit_status result.1) }
{
    let outcome = host_main(rt, rt.alloc(), words, store, say, gate);
    report(rt, words, store, say, &outcome);
    let Outcome {
        status,
        journal,
        config,
        ..
    } = outcome;
    // Giving back a long journal and the logs of nodes piece by piece would take a good part of the
    // run.
    mem::forget(journal);
    mem::forget(config);
    let exit = exit_code(&status);
    (status, exit)
}

/// The answer where there is no memory for the words themselves.
fn without_memory(rt: &HostRuntime) -> ExitCode {
    let _ = eprintln!(rt; "lio_host: {}", HostStatus::NoMemory);
    exit_code(&HostStatus::NoMemory)
}

fn main(rt: HostRuntime) -> ExitCode {
    let Ok(words) = words(&rt) else {
        return without_memory(&rt);
    };
    let mut store = RealStore::new(rt.alloc(), &rt);
    let mut say = RealSay::new(&rt);
    let (status, exit) = respond(&rt, words.as_slice(), &mut store, &mut say, &OpenGate);
    drop(status);
    exit
}
