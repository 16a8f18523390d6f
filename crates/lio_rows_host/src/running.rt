//! Runs a case by its program, and compares.

use crate::cases::{Case, Kind, Setting};
use crate::compare::compare;
use crate::found::Found;
use crate::store::{store_of, words_of};
use crate::{coop, host, observer, polls, questions, seats, tables};
use lio_clauses::NoMemory;
use lio_outside::MemStore;
use std::alloc::AllocGlobal;
use std::random::RandomSource;
use std::sync::Wait;
use std::thread::Threads;

/// What the program of a case does over a store.
fn run<R>(
    rt: &R,
    case: &Case<'_>,
    setting: Setting<'_>,
    store: &mut MemStore,
) -> Result<Found, NoMemory>
where
    R: AllocGlobal + RandomSource + Threads + Wait + Sync,
{
    let words = words_of(rt.alloc(), case, setting.kind)?;
    let words = words.as_slice();
    match setting.kind {
        Kind::Host => host::run(rt, case, setting, words, store),
        Kind::Futures => coop::run(rt, case, setting, words, store),
        Kind::Observer => observer::run(rt.alloc(), case, words, store),
        Kind::Questions => questions::run(rt.alloc(), case, words, store),
        Kind::Polls => polls::run(rt, case, words, store),
        Kind::Seats => seats::run(rt.alloc(), words, store),
        Kind::Table => tables::run(rt, words, store),
    }
}

/// What is printed behind the name of a case under a setting.
fn differences_under<R>(rt: &R, case: &Case<'_>, setting: Setting<'_>) -> Result<Vec<u8>, NoMemory>
where
    R: AllocGlobal + RandomSource + Threads + Wait + Sync,
{
    let alloc = rt.alloc();
    let mut store = store_of(alloc, case, setting)?;
    match run(rt, case, setting, &mut store) {
        Ok(did) => compare(alloc, case, &did, &store),
        Err(NoMemory) => Err(NoMemory),
    }
}

/// What is printed behind the name of a case that is run so often: that of the first time that a
/// part doesn't hold.
fn differences_often<R>(
    rt: &R,
    case: &Case<'_>,
    setting: Setting<'_>,
    often: u64,
) -> Result<Vec<u8>, NoMemory>
where
    R: AllocGlobal + RandomSource + Threads + Wait + Sync,
{
    for _time in 1..often {
        let found = differences_under(rt, case, setting)?;
        if !found.is_empty() {
            return Ok(found);
        }
    }
    differences_under(rt, case, setting)
}

/// What is printed behind the name of a case, also where it cuts the policy at each place before
/// its last brace: that of the first cut under which a part doesn't hold.
pub(crate) fn differences<R>(
    rt: &R,
    case: &Case<'_>,
    setting: Setting<'_>,
) -> Result<Vec<u8>, NoMemory>
where
    R: AllocGlobal + RandomSource + Threads + Wait + Sync,
{
    if case.part("cut_each").is_none() {
        return differences_often(rt, case, setting, case.number("often").unwrap_or(1));
    }
    let whole = setting.policy;
    let mut cut = setting;
    for end in 0..=whole.rfind('}').unwrap_or(0) {
        cut.policy = whole.get(..end).unwrap_or(whole);
        let found = differences_under(rt, case, cut)?;
        if !found.is_empty() {
            return Ok(found);
        }
    }
    Ok(Vec::new(rt.alloc()))
}
