//! Policies that break a rule.

use crate::rules::policy_rule;
use lio_clauses::NoMemory;
use lio_front::Shown;
use lio_messages_entries::{PolicyMistake, policy_mistake};
use lio_messages_hints::{Message, Piece};
use lio_policy_draft::{EntryAt, EntryKind, entry_at};
use std::alloc::Global;

/// An entry of a policy that breaks a rule, where there is one with its number, and what is wrong
/// with it.
#[derive(Drop)]
pub struct WrongEntry {
    entry: Option<EntryAt>,
    mistake: Option<PolicyMistake>,
}

/// The entry of a policy that breaks a rule.
pub(crate) fn wrong_entry(
    alloc: Global,
    policy: &[u8],
    rule: u32,
    number: u32,
) -> Result<WrongEntry, NoMemory> {
    let mistake = policy_mistake(alloc, policy, rule, number)?;
    let entry = entry_at(alloc, policy, number)?;
    Ok(WrongEntry { entry, mistake })
}

/// What an entry is.
fn kind_text(kind: EntryKind) -> &'static str {
    match kind {
        EntryKind::Document => "the document",
        EntryKind::Principal => "principal",
        EntryKind::Channel => "channel",
        EntryKind::Input => "input",
        EntryKind::Task => "task",
    }
}

/// Tells which entry of a policy it is: its place in its list and its name, or else its number.
fn tell_entry(message: &mut Message, found: &Option<EntryAt>, number: u32) {
    let Some(found) = found else {
        let number = Piece::Number(u64::from(number));
        message.fill("entry {}", number, Piece::Nothing, Piece::Nothing);
        return;
    };
    message.words(kind_text(found.kind));
    if found.place > 0 {
        message.words(" ");
        message.show(found.place);
    }
    if let Some(name) = &found.name {
        message.words(", \"");
        message.show(Shown(name));
        message.words("\"");
    }
}

/// Tells of a policy in which an entry breaks a rule.
pub(crate) fn tell_policy(
    message: &mut Message,
    policy: &str,
    rule: u32,
    number: u32,
    found: &WrongEntry,
) {
    message.words(policy);
    if let Some(mistake) = &found.mistake
        && let Some((line, column)) = mistake.position
    {
        let line = Piece::Number(line as u64);
        let column = Piece::Number(column as u64);
        message.fill(
            ":{}:{}: {}",
            line,
            column,
            Piece::Words(mistake.text.as_str()),
        );
        return;
    }
    message.words(": ");
    tell_entry(message, &found.entry, number);
    message.words(": ");
    match &found.mistake {
        Some(mistake) => message.words(mistake.text.as_str()),
        None => message.words(policy_rule(rule)),
    }
}

/// Tells of a policy of which nothing but the rule that it breaks is known.
pub(crate) fn tell_policy_rule(message: &mut Message, policy: &str, rule: u32) {
    message.words(policy);
    message.words(": ");
    message.words(policy_rule(rule));
}
