//! The store of a case, and its words.

use crate::cases::{Case, Kind, Part, Setting};
use lio_clauses::NoMemory;
use lio_outside::{MemSay, MemStore};
use std::alloc::Global;

/// Puts a file into a store.
fn put(alloc: Global, store: &mut MemStore, name: &str, bytes: &[u8]) -> Result<(), NoMemory> {
    match store.put(alloc, name.as_bytes(), bytes) {
        Ok(()) => Ok(()),
        Err(_) => Err(NoMemory),
    }
}

/// The text of a file, so often.
fn repeated(alloc: Global, text: &str, times: u64) -> Result<Vec<u8>, NoMemory> {
    let whole = times.saturating_mul(text.len() as u64);
    let mut bytes = Vec::with_capacity(alloc, usize::try_from(whole).unwrap_or(0))?;
    for _time in 0..times {
        bytes.extend_from_slice(text.as_bytes())?;
    }
    Ok(bytes)
}

/// Puts the files of a case into a store.
fn put_files(
    alloc: Global,
    store: &mut MemStore,
    case: &Case<'_>,
    setting: Setting<'_>,
) -> Result<(), NoMemory> {
    put(alloc, store, "p.json", setting.policy.as_bytes())?;
    put(alloc, store, "s.lio", setting.script.as_bytes())?;
    let times = case.number("times").unwrap_or(1);
    for part in &case.parts {
        if part.word == "input" {
            let bytes = repeated(alloc, part.text.as_str(), times)?;
            put(alloc, store, part.about, bytes.as_slice())?;
        }
    }
    Ok(())
}

/// Cuts a file behind its first bytes, or puts the byte 0xFF at a place of it.
fn damage(
    alloc: Global,
    store: &mut MemStore,
    part: &Part<'_>,
    name: &str,
    place: usize,
) -> Result<(), NoMemory> {
    let mut bytes = Vec::from_slice(alloc, store.get(name.as_bytes()).unwrap_or(b""))?;
    if part.word == "cut" {
        bytes.truncate(place);
    } else if let Some(byte) = bytes.get_mut(place) {
        *byte = 0xff;
    }
    put(alloc, store, name, bytes.as_slice())
}

/// Damages the files that a case cuts, or in which it puts a byte that is no text.
fn damage_files(alloc: Global, store: &mut MemStore, case: &Case<'_>) -> Result<(), NoMemory> {
    for part in &case.parts {
        if let "cut" | "byte" = part.word
            && let Some((name, place)) = part.about.split_once(' ')
            && let Ok(place) = place.parse::<usize>()
        {
            damage(alloc, store, part, name, place)?;
        }
    }
    Ok(())
}

/// The calls of an object that are to fail.
fn failing(alloc: Global, case: &Case<'_>, word: &str) -> Result<Vec<u64>, NoMemory> {
    let mut failing = Vec::new(alloc);
    if let Some(call) = case.number(word) {
        failing.push(call)?;
    }
    Ok(failing)
}

/// A store with the files of a case, whose calls fail that are to fail.
pub(crate) fn store_of(
    alloc: Global,
    case: &Case<'_>,
    setting: Setting<'_>,
) -> Result<MemStore, NoMemory> {
    let mut store = MemStore::new(alloc, failing(alloc, case, "fail")?);
    let filled = match put_files(alloc, &mut store, case, setting) {
        Ok(()) => damage_files(alloc, &mut store, case),
        refused => refused,
    };
    match filled {
        Ok(()) => Ok(store),
        Err(NoMemory) => Err(NoMemory),
    }
}

/// An output whose calls fail that are to fail in a case.
pub(crate) fn say_of(alloc: Global, case: &Case<'_>) -> Result<MemSay, NoMemory> {
    Ok(MemSay::new(alloc, failing(alloc, case, "failsay")?))
}

/// The words that stand in a text, one a line.
pub(crate) fn lines_of(alloc: Global, text: &str) -> Result<Vec<String>, NoMemory> {
    let mut words = Vec::new(alloc);
    for word in text.lines() {
        words.push(String::from_str(alloc, word)?)?;
    }
    Ok(words)
}

/// The words of a case.
pub(crate) fn words_of(
    alloc: Global,
    case: &Case<'_>,
    kind: Kind,
) -> Result<Vec<String>, NoMemory> {
    let usual = match kind {
        Kind::Observer => "p.json\ns.lio\nv\nTrue %% True\n",
        _ => "p.json\ns.lio\n",
    };
    lines_of(alloc, case.text("words").unwrap_or(usual))
}
