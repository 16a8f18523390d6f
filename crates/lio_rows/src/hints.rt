//! Commands on what the host says of a line or of a policy that it refuses.

use crate::refusal::{Answered, Refusal};
use lio_clauses::Names;
use lio_messages_entries::{PolicyMistake, policy_mistake};
use lio_messages_hints::Mistake;
use lio_messages_lines::{line_mistake, script_mistake};
use lio_policy::read_policy;
use lio_policy_draft::PolicyFault;
use lio_rows_commands::Answer;
use lio_syntax::{ScriptFault, read_script};
use std::alloc::{AllocError, Global};

/// What a command on hints answers, if the word and the number of fields are those of one.
pub fn answer(alloc: Global, names: &Names, word: &str, fields: &[Vec<u8>]) -> Answered {
    match (word, fields) {
        ("mistake", [line]) => Some(mistake(alloc, names, line.as_slice())),
        ("script_mistake", [script]) => Some(wrong_script(alloc, names, script.as_slice())),
        ("policy_mistake", [json]) => Some(wrong_policy(alloc, json.as_slice())),
        _ => None,
    }
}

/// `mistake LINE`: the place of what is wrong with the line, and how to mend it; or `none`.
fn mistake(alloc: Global, names: &Names, line: &[u8]) -> Result<Answer, Refusal> {
    let text = match line_mistake(alloc, names, line)? {
        Some(mistake) => told(alloc, &mistake),
        None => Vec::from_slice(alloc, b"none"),
    };
    Ok(Answer::Text(text?))
}

/// A mistake in a line.
fn told(alloc: Global, mistake: &Mistake) -> Result<Vec<u8>, AllocError> {
    let place = mistake.place;
    let text = mistake.text.as_str();
    Ok(format!(in alloc; "{place}: {text}")?.into_bytes())
}

/// `script_mistake SCRIPT`: the line, the rule that it breaks, the place in the line, and how to
/// mend it; or `ok`.
fn wrong_script(alloc: Global, names: &Names, script: &[u8]) -> Result<Answer, Refusal> {
    let fault = match read_script(alloc, script, names) {
        Ok(_script) => return Ok(Answer::Text(Vec::from_slice(alloc, b"ok")?)),
        Err(fault) => fault,
    };
    let ScriptFault::Bad { line, rule } = fault else {
        return Err(Refusal::from(fault));
    };
    let text = match script_mistake(alloc, names, script, line, rule)? {
        Some(mistake) => told_script(alloc, line, rule, &mistake),
        None => Vec::from_slice(alloc, b"none"),
    };
    Ok(Answer::Text(text?))
}

/// A mistake in a script.
fn told_script(
    alloc: Global,
    line: u32,
    rule: u32,
    mistake: &Mistake,
) -> Result<Vec<u8>, AllocError> {
    let place = mistake.place;
    let text = mistake.text.as_str();
    Ok(format!(in alloc; "{line} {rule} {place}: {text}")?.into_bytes())
}

/// `policy_mistake JSON`: the rule that the policy breaks, the entry, and what is wrong with it; or
/// `ok`.
fn wrong_policy(alloc: Global, json: &[u8]) -> Result<Answer, Refusal> {
    let fault = match read_policy(alloc, json) {
        Ok(_policy) => return Ok(Answer::Text(Vec::from_slice(alloc, b"ok")?)),
        Err(fault) => fault,
    };
    let PolicyFault::Bad { rule, entry } = fault else {
        return Err(Refusal::from(fault));
    };
    let text = match policy_mistake(alloc, json, rule, entry)? {
        Some(mistake) => told_policy(alloc, rule, entry, &mistake),
        None => Vec::from_slice(alloc, b"none"),
    };
    Ok(Answer::Text(text?))
}

/// A mistake in a policy.
fn told_policy(
    alloc: Global,
    rule: u32,
    entry: u32,
    mistake: &PolicyMistake,
) -> Result<Vec<u8>, AllocError> {
    let text = mistake.text.as_str();
    let told = match mistake.position {
        Some((line, column)) => format!(in alloc; "{rule} {entry} {line}:{column}: {text}")?,
        None => format!(in alloc; "{rule} {entry}: {text}")?,
    };
    Ok(told.into_bytes())
}
