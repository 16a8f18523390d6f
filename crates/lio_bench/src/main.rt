//! Repeats an operation, so that `bench/run` can measure it: `lio_bench OPERATION SUBJECT TIMES`.
#![tactic(auto)]

mod asked;
mod journals;
mod labels;
mod merges;
mod policies;
mod turns;

use asked::Asked;
use lio_system::RealStore;
use std::process::ExitCode;
use std::{env, io};

/// The words after the program's name.
fn words(rt: &HostRuntime) -> io::Result<Vec<String>> {
    let words = env::args(rt)?.skip(1).collect(rt.alloc())?;
    Ok(words)
}

/// Whether what the words say was done.
fn is_done(rt: &HostRuntime) -> bool {
    let Ok(words) = words(rt) else {
        return false;
    };
    let Some(asked) = Asked::of_words(words.as_slice()) else {
        return false;
    };
    asked.is_done(rt.alloc(), &mut RealStore::new(rt.alloc(), rt))
}

fn main(rt: HostRuntime) -> ExitCode {
    if is_done(&rt) {
        ExitCode::SUCCESS
    } else {
        ExitCode::FAILURE
    }
}
