//! What a case says, beside what its program did.

use crate::cases::{Case, Part, kind_named};
use crate::found::Found;
use crate::line::Differences;
use lio_clauses::NoMemory;
use lio_outside::MemStore;
use std::alloc::Global;

/// Whether what a part is about is this number.
fn is_number(about: &str, number: u64) -> bool {
    match about.parse::<u64>() {
        Ok(said) => said == number,
        Err(_) => false,
    }
}

/// Compares a file.
fn compare_file(found: &mut Differences, part: &Part<'_>, store: &MemStore) {
    let expected = part.text.as_str().as_bytes();
    match store.get(part.about.as_bytes()) {
        Some(bytes) if bytes == expected => {}
        Some(bytes) => found.add("file", part.about, bytes),
        None => found.add("file", part.about, b"absent"),
    }
}

/// Sees that a file isn't there.
fn compare_absent(found: &mut Differences, part: &Part<'_>, store: &MemStore) {
    if let Some(bytes) = store.get(part.about.as_bytes()) {
        found.add("absent", part.about, bytes);
    }
}

/// Compares a text.
fn compare_text(found: &mut Differences, part: &Part<'_>, text: &[u8]) {
    if part.text.as_str().as_bytes() != text {
        found.add(part.word, "", text);
    }
}

/// Compares what a part is about.
fn compare_about(found: &mut Differences, part: &Part<'_>, about: &str) {
    if part.about != about {
        found.add(part.word, "", about.as_bytes());
    }
}

/// How a case says whether something holds.
fn yes_or_no(holds: bool) -> &'static str {
    if holds { "yes" } else { "no" }
}

/// Compares a number.
fn compare_number(found: &mut Differences, part: &Part<'_>, number: u64) {
    if !is_number(part.about, number) {
        found.add_number(part.word, number);
    }
}

/// Sees that what a part is about is a number, behind a file's name or alone.
fn see_number(found: &mut Differences, part: &Part<'_>) {
    let number = match (part.word, part.about.split_once(' ')) {
        ("cut" | "byte", Some((_, place))) => place,
        _ => part.about,
    };
    if number.parse::<u64>().is_err() {
        found.add(part.word, part.about, b"no number");
    }
}

/// Compares a part of a case with what its program did.
fn compare_part(found: &mut Differences, part: &Part<'_>, did: &Found, store: &MemStore) {
    match part.word {
        "program" if kind_named(part.about).is_some() => {}
        "policy" | "script" | "input" | "words" | "cut_each" | "same" => {}
        "again" | "seen" => {}
        "cut" | "byte" | "fail" | "failsay" | "trouble" | "times" => see_number(found, part),
        "often" | "held" => see_number(found, part),
        "status" => compare_about(found, part, did.status.as_str()),
        "exit" => compare_number(found, part, u64::from(did.number)),
        "entries" => compare_number(found, part, did.entries),
        "file" => compare_file(found, part, store),
        "absent" => compare_absent(found, part, store),
        "says" if did.says.as_str().starts_with(part.text.as_str()) => {}
        "says" => found.add("says", "", did.says.as_str().as_bytes()),
        "notes" => compare_text(found, part, did.notes.as_str().as_bytes()),
        "said" => compare_text(found, part, did.said.as_slice()),
        "journal" => compare_text(found, part, did.journal.as_slice()),
        "tells" => compare_text(found, part, did.tells.as_str().as_bytes()),
        "told" => compare_about(found, part, did.gate.turns.as_str()),
        "tasks" => compare_about(found, part, did.gate.tasks.as_str()),
        "comes" => compare_about(found, part, yes_or_no(did.gate.comes)),
        word => found.add(word, part.about, b"no word of cases"),
    }
}

/// Compares what holds of each case, also where it doesn't say it: that it has a status, that no
/// turn was taken, that nothing was said, that a second call says the same, and that the host does.
fn compare_unsaid(found: &mut Differences, case: &Case<'_>, did: &Found) {
    if case.part("status").is_none() {
        found.add("status", "", did.status.as_str().as_bytes());
    }
    if did.entries > 0 && case.part("entries").is_none() {
        found.add_number("entries", did.entries);
    }
    if !did.may_say && !did.said.is_empty() && case.part("said").is_none() {
        found.add("said", "", did.said.as_slice());
    }
    if let Some(again) = &did.again {
        found.add("again", "", again.as_str().as_bytes());
    }
    if let Some(host) = &did.host {
        found.add("host", "", host.as_str().as_bytes());
    }
}

/// What is printed behind the name of a case: each part that doesn't hold, and what was found in
/// its place; nothing where all hold.
pub(crate) fn compare(
    alloc: Global,
    case: &Case<'_>,
    did: &Found,
    store: &MemStore,
) -> Result<Vec<u8>, NoMemory> {
    let mut found = Differences::new(alloc);
    for part in &case.parts {
        compare_part(&mut found, part, did, store);
    }
    compare_unsaid(&mut found, case, did);
    found.finish()
}
