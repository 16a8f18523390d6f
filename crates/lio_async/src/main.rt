//! Runs a script under a policy in rounds, as a future, writes what it sends to its channels and
//! what an observer sees, and says a summary.
#![tactic(auto)]

ghost use Rattle.std.specs.Prelude.{◌≡◌, ◌≤◌, List};
ghost use Rattle.std.specs.Process.{exit_status};
ghost use Rattle.lio_values.specs.declared.entry.Entry.{Entry};
ghost use Rattle.lio_host_main.specs.Answers.{EndsWith};
ghost use Rattle.lio_outside.specs.Call.{outside};
ghost use Rattle.lio_front.specs.Status.{exit_status as status_number};
ghost use Rattle.lio_front.specs.Sorted.{bytes_of_words};
ghost use Rattle.lio_async_main.specs.Words.{host_words};

use lio_async_main::{CoopOutcome, CoopStatus, coop_main};
use lio_clauses::NoMemory;
use lio_host_main::HostStatus;
use lio_messages_notes::{Source, print_notes};
use lio_messages_refusals::{Program, print_refusal};
use lio_outside::{Say, Store};
use lio_system::{RealSay, RealStore};
use std::process::ExitCode;
use std::random::RandomSource;
use std::sync::Wait;
use std::thread::Threads;
use std::{env, io, mem};

/// The words after the program's name. Words that can't be had as text are wrong words, as none
/// are.
fn words(rt: &HostRuntime) -> Result<Vec<String>, NoMemory> {
    match env::args(rt) {
        Ok(args) => Ok(args.skip(1).collect(rt.alloc())?),
        Err(error) if error.kind() == io::ErrorKind::OutOfMemory => Err(NoMemory),
        Err(_) => Ok(Vec::new(rt.alloc())),
    }
}

/// The exit status of an answer.
fn exit_code(status: &CoopStatus) -> ExitCode
    ensures { exit_status result ≡ status_number status.now }
{
    ExitCode::from(status.number())
}

/// The bytes, where they were read; else none.
fn bytes_of(bytes: &Option<Vec<u8>>) -> &[u8] {
    match bytes {
        Some(bytes) => bytes.as_slice(),
        None => &[],
    }
}

/// Says on standard error what was refused, or what went wrong in the run, if anything was or did.
fn report<R: AllocGlobal + Eprint, S: Store, W: Say>(
    rt: &R,
    words: &[String],
    store: &S,
    say: &W,
    outcome: &CoopOutcome,
) {
    let CoopOutcome {
        status,
        journal,
        job,
        config,
        texts,
    } = outcome;
    if let (Some(job), Some(config), [_, script, ..]) = (job, config, words) {
        let text = bytes_of(&texts.script);
        let name = script.as_str();
        print_notes(rt, job, journal, config, Source { name, text });
    }
    print_refusal(rt, Program::Futures, words, store, say, status, texts, None);
}

/// Runs the script that the words name, says on standard error what was refused or went wrong, if
/// anything was or did, and gives the answer and its exit status.
fn respond<R, S: Store, W: Say>(
    rt: &R,
    words: &[String],
    store: &mut S,
    say: &mut W,
) -> (CoopStatus, ExitCode)
where
    R: AllocGlobal + Eprint + RandomSource + Threads + Wait + Sync,
    ensures { EndsWith (λ (journal : List Entry). record {
      words = host_words (bytes_of_words words.now);
      before = outside S.holds S.faults W.said W.faults store.old say.old;
      after = outside S.holds S.faults W.said W.faults store.new say.new;
      journal = journal;
    }) result.0 (exit_status result.1) }
{
    let outcome = coop_main(rt, rt.alloc(), words, store, say);
    report(rt, words, store, say, &outcome);
    let CoopOutcome {
        status,
        journal,
        config,
        ..
    } = outcome;
    // Giving back a long journal and the logs of nodes piece by piece would take a good part of the
    // run.
    mem::forget(journal);
    mem::forget(config);
    let exit = exit_code(&status);
    (status, exit)
}

/// The answer where there is no memory for the words themselves.
fn without_memory(rt: &HostRuntime) -> ExitCode {
    let _ = eprintln!(rt; "lio_async: {}", HostStatus::NoMemory);
    exit_code(&CoopStatus::NoMemory)
}

fn main(rt: HostRuntime) -> ExitCode {
    let Ok(words) = words(&rt) else {
        return without_memory(&rt);
    };
    let mut store = RealStore::new(rt.alloc(), &rt);
    let mut say = RealSay::new(&rt);
    let (status, exit) = respond(&rt, words.as_slice(), &mut store, &mut say);
    drop(status);
    exit
}
