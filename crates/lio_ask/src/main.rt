//! Answers questions about a policy, a script and a history, and writes no file.
#![tactic(auto)]

ghost use Rattle.std.specs.Prelude.{◌≡◌};
ghost use Rattle.std.specs.Process.{exit_status};
ghost use Rattle.lio_front.specs.Sorted.{bytes_of_words};
ghost use Rattle.lio_outside.specs.Call.{outside};
ghost use Rattle.lio_ask_main.specs.Answers.{EndsWith, exit_number};

mod parts;
mod stop;
mod warnings;

use crate::stop::stop_of;
use crate::warnings::warnings_text;
use lio_ask_main::{Answer, Asked, ask};
use lio_clauses::NoMemory;
use lio_front::{Status, Texts};
use lio_messages_refusals::{Program, print_refusal};
use lio_outside::{Say, Store};
use lio_system::{RealSay, RealStore};
use std::process::ExitCode;
use std::{env, io};

/// The words after the program's name. Words that can't be had as text are wrong words, as none
/// are.
fn words(rt: &HostRuntime) -> Result<Vec<String>, NoMemory> {
    match env::args(rt) {
        Ok(args) => Ok(args.skip(1).collect(rt.alloc())?),
        Err(error) if error.kind() == io::ErrorKind::OutOfMemory => Err(NoMemory),
        Err(_) => Ok(Vec::new(rt.alloc())),
    }
}

/// The exit status of an answer.
fn exit_code(answer: &Answer) -> ExitCode
    ensures { exit_status result ≡ exit_number answer.now }
{
    ExitCode::from(answer.number())
}

/// Warns on standard error of what looks wrong in a policy and a script that were checked; nothing
/// where no memory is left for it.
fn print_warnings<R: AllocGlobal + Eprint>(rt: &R, words: &[String], texts: &Texts) {
    let [_, policy, script] = words else {
        return;
    };
    let names = (policy.as_str(), script.as_str());
    if let Ok(warnings) = warnings_text(rt.alloc(), names, texts) {
        let _ = eprint!(rt; "{warnings}");
    }
}

/// Says on standard error what was refused or looks wrong, if anything was or does.
fn report<R: AllocGlobal + Eprint, S: Store, W: Say>(
    rt: &R,
    words: &[String],
    store: &S,
    say: &W,
    asked: &Asked,
) {
    match &asked.answer {
        Answer::Plain(Status::Done) => print_warnings(rt, words, &asked.texts),
        Answer::Plain(status) => {
            let stop = stop_of(rt.alloc(), &asked.answer, &asked.past);
            print_refusal(
                rt,
                Program::Questions,
                words,
                store,
                say,
                status,
                &asked.texts,
                stop,
            );
        }
        Answer::Troubled => {}
    }
}

/// Answers the question that the words ask, says on standard error what was refused or looks wrong,
/// if anything was or does, and gives the answer and its exit status.
fn respond<R: AllocGlobal + Eprint, S: Store, W: Say>(
    rt: &R,
    words: &[String],
    store: &mut S,
    say: &mut W,
) -> (Answer, ExitCode)
    ensures files { S.holds store.new ≡ S.holds store.old }
    ensures ends { EndsWith (record {
      words = bytes_of_words words.now;
      before = outside S.holds S.faults W.said W.faults store.old say.old;
      after = outside S.holds S.faults W.said W.faults store.new say.new;
    }) result.0 (exit_status result.1) }
{
    let asked = ask(rt.alloc(), words, store, say);
    report(rt, words, store, say, &asked);
    let Asked { answer, .. } = asked;
    let exit = exit_code(&answer);
    (answer, exit)
}

/// The answer where there is no memory for the words themselves.
fn without_memory(rt: &HostRuntime) -> ExitCode {
    let answer = Answer::Plain(Status::NoMemory);
    let _ = eprintln!(rt; "lio_ask: {}", Status::NoMemory);
    exit_code(&answer)
}

fn main(rt: HostRuntime) -> ExitCode {
    let Ok(words) = words(&rt) else {
        return without_memory(&rt);
    };
    let mut store = RealStore::new(rt.alloc(), &rt);
    let mut say = RealSay::new(&rt);
    let (_answer, exit) = respond(&rt, words.as_slice(), &mut store, &mut say);
    exit
}
