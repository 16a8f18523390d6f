//! Checks that a file is what an observer sees of a run, by the policy, the script and the inputs
//! that the observer sees, and says how many lines it has.
#![tactic(auto)]

ghost use Rattle.std.specs.Prelude.{◌≡◌};
ghost use Rattle.std.specs.Process.{exit_status};
ghost use Rattle.lio_front.specs.Sorted.{bytes_of_words};
ghost use Rattle.lio_observe_main.specs.Answers.{EndsWith};
ghost use Rattle.lio_outside.specs.Call.{outside};
ghost use Rattle.lio_front.specs.Status.{exit_status as status_number};

mod stop;

use crate::stop::stop_of;
use lio_clauses::NoMemory;
use lio_messages_refusals::{Program, print_refusal};
use lio_observe_main::{ObserveStatus, Observed, observe_read};
use lio_outside::{Say, Store};
use lio_system::{RealSay, RealStore};
use std::process::ExitCode;
use std::{env, io};

/// The words after the program's name. Words that can't be had as text are wrong words, as none
/// are.
fn words(rt: &HostRuntime) -> Result<Vec<String>, NoMemory> {
    match env::args(rt) {
        Ok(args) => Ok(args.skip(1).collect(rt.alloc())?),
        Err(error) if error.kind() == io::ErrorKind::OutOfMemory => Err(NoMemory),
        Err(_) => Ok(Vec::new(rt.alloc())),
    }
}

/// The exit status of an answer.
fn exit_code(status: &ObserveStatus) -> ExitCode
    ensures { exit_status result ≡ status_number status.now }
{
    ExitCode::from(status.number())
}

/// Checks what the words name, says on standard error what was refused, if anything was, and gives
/// the answer and its exit status.
fn respond<R: AllocGlobal + Eprint, S: Store, W: Say>(
    rt: &R,
    words: &[String],
    store: &mut S,
    say: &mut W,
) -> (ObserveStatus, ExitCode)
    ensures files { S.holds store.new ≡ S.holds store.old }
    ensures ends { EndsWith (record {
      words = bytes_of_words words.now;
      before = outside S.holds S.faults W.said W.faults store.old say.old;
      after = outside S.holds S.faults W.said W.faults store.new say.new;
    }) result.0 (exit_status result.1) }
{
    let Observed { status, read } = observe_read(rt.alloc(), words, store, say);
    let stop = stop_of(rt.alloc(), &status, &read.claim);
    print_refusal(
        rt,
        Program::Observer,
        words,
        store,
        say,
        &status,
        &read.texts,
        stop,
    );
    let exit = exit_code(&status);
    (status, exit)
}

/// The answer where there is no memory for the words themselves.
fn without_memory(rt: &HostRuntime) -> ExitCode {
    let _ = eprintln!(rt; "lio_observe: {}", ObserveStatus::NoMemory);
    exit_code(&ObserveStatus::NoMemory)
}

fn main(rt: HostRuntime) -> ExitCode {
    let Ok(words) = words(&rt) else {
        return without_memory(&rt);
    };
    let mut store = RealStore::new(rt.alloc(), &rt);
    let mut say = RealSay::new(&rt);
    let (status, exit) = respond(&rt, words.as_slice(), &mut store, &mut say);
    drop(status);
    exit
}
