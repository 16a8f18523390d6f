//! What the files say of a refusal, beside the numbers in the answer.

use crate::channels::{Channels, FileFault, channels_before};
use crate::entry::{WrongEntry, wrong_entry};
use crate::line::{WrongLine, wrong_line};
use crate::program::Program;
use crate::stop::Stop;
use crate::task::{WrongTask, wrong_task};
use crate::words::label_of;
use lio_clauses::NoMemory;
use lio_front::{Status, Texts};
use lio_messages_hints::{Mistake, Piece, filled, label_mistake};
use lio_outside::{Say, Store, Trouble};
use lio_policy::{Policy, read_policy};
use lio_policy_draft::PolicyFault;
use lio_values::Text;
use std::alloc::Global;

/// What helps to mend what was refused.
#[derive(Drop)]
pub enum Detail {
    /// Nothing beyond the answer.
    Nothing,
    /// The entry of the policy that breaks a rule.
    Entry(WrongEntry),
    /// The task that can't begin.
    Task(WrongTask),
    /// The line of the script that breaks a rule.
    Line(WrongLine),
    /// What is wrong with the observer's label.
    Label(Mistake),
    /// What stood in the way of a file or of the output.
    Fault(FileFault),
    /// The line at which a history or a view stops.
    Stop(Stop),
}

/// What is told of a trouble with a file.
pub fn trouble_text(
    alloc: Global,
    program: Program,
    trouble: Trouble<'_>,
) -> Result<String, NoMemory> {
    let (template, name) = match (trouble, program) {
        (Trouble::System(error), _) => return Ok(format!(in alloc; "{error}")?),
        (Trouble::Beside(error), _) => {
            return Ok(format!(in alloc; "no new file can be made beside it: {error}")?);
        }
        (Trouble::NotText, _) => ("its name isn't UTF-8", Piece::Nothing),
        (Trouble::StandardOutput, _) => (
            "standard output goes to it, and the summary would be written over it; give one of them another file",
            Piece::Nothing,
        ),
        (Trouble::NamesTaken, _) => (
            "beside it stand files whose names end in .part0 to .part7, left by runs that were cut off; remove them",
            Piece::Nothing,
        ),
        (Trouble::SameFile(name), Program::Observer | Program::Questions) => {
            (
                "it is the same file as {}, which was read before",
                Piece::Shown(name),
            )
        }
        (Trouble::SameFile(name), _) => (
            "it is the same file as {}, which was read or written before; give it a file of its own",
            Piece::Shown(name),
        ),
    };
    filled(alloc, template, name, Piece::Nothing, Piece::Nothing)
}

/// What a policy says of a refusal.
fn policy_says(
    alloc: Global,
    status: &Status,
    policy: &Policy,
    script: &[u8],
) -> Result<Detail, NoMemory> {
    match status {
        Status::BadScript(line, rule) => {
            Ok(Detail::Line(wrong_line(alloc, policy, script, *line, *rule)?))
        }
        Status::BadStart(place, _) => match wrong_task(alloc, policy, script, *place)? {
            Some(task) => Ok(Detail::Task(task)),
            None => Ok(Detail::Nothing),
        },
        _ => Ok(Detail::Nothing),
    }
}

/// What the texts of a policy and of a script say of a refusal.
fn texts_say(
    alloc: Global,
    status: &Status,
    policy: &[u8],
    script: &[u8],
) -> Result<Detail, NoMemory> {
    match read_policy(alloc, policy) {
        Ok(policy) => policy_says(alloc, status, &policy, script),
        Err(PolicyFault::Bad { .. }) => Ok(Detail::Nothing),
        Err(PolicyFault::NoMemory) => Err(NoMemory),
    }
}

/// What is wrong with the text of a label, over the principals of a policy.
fn label_detail(alloc: Global, policy: &Policy, label: &[u8]) -> Result<Detail, NoMemory> {
    Ok(match label_mistake(alloc, &policy.names, label)? {
        Some(mistake) => Detail::Label(mistake),
        None => Detail::Nothing,
    })
}

/// What is wrong with the text of a label, over the principals of the policy that a text is.
fn label_says(alloc: Global, policy: &[u8], label: &[u8]) -> Result<Detail, NoMemory> {
    match read_policy(alloc, policy) {
        Ok(policy) => label_detail(alloc, &policy, label),
        Err(PolicyFault::Bad { .. }) => Ok(Detail::Nothing),
        Err(PolicyFault::NoMemory) => Err(NoMemory),
    }
}

/// The channels that are written before the file with a name, in the policy that a text is.
fn channels_of(alloc: Global, policy: &Option<Vec<u8>>, name: &Text) -> Option<Channels> {
    let Some(policy) = policy else {
        return None;
    };
    match read_policy(alloc, policy.as_slice()) {
        Ok(policy) => Some(channels_before(&policy, name)),
        Err(_) => None,
    }
}

/// What the words, the trouble with a file, the texts that were read, and the line at which a
/// history or a view stops say of a refusal.
pub fn detail_of(
    alloc: Global,
    program: Program,
    words: &[String],
    status: &Status,
    why: Option<String>,
    texts: &Texts,
    stop: Option<Stop>,
) -> Result<Detail, NoMemory> {
    match (status, &texts.policy, &texts.script) {
        (Status::ReadFault(_) | Status::SayFault, _, _) => {
            let channels = None;
            Ok(Detail::Fault(FileFault { why, channels }))
        }
        (Status::WriteFault(name), policy, _) => {
            let channels = channels_of(alloc, policy, name);
            Ok(Detail::Fault(FileFault { why, channels }))
        }
        (Status::BadWords, Some(policy), _) => match label_of(program, words) {
            Some(label) => label_says(alloc, policy.as_slice(), label),
            None => Ok(Detail::Nothing),
        },
        (Status::BadPolicy(rule, entry), Some(policy), _) => {
            let found = wrong_entry(alloc, policy.as_slice(), *rule, *entry)?;
            Ok(Detail::Entry(found))
        }
        (Status::BadScript(_, _) | Status::BadStart(_, _), Some(policy), Some(script)) => {
            texts_say(alloc, status, policy.as_slice(), script.as_slice())
        }
        (Status::NotARun(_) | Status::NotAView(_), _, _) => match stop {
            Some(stop) => Ok(Detail::Stop(stop)),
            None => Ok(Detail::Nothing),
        },
        _ => Ok(Detail::Nothing),
    }
}

/// What stood in the way of a file or of the output, where the answer is that something did.
fn trouble_of<S: Store, W: Say>(
    alloc: Global,
    program: Program,
    store: &S,
    say: &W,
    status: &Status,
) -> Option<String> {
    let trouble = match status {
        Status::ReadFault(_) | Status::WriteFault(_) => store.trouble(),
        Status::SayFault => say.trouble(),
        _ => None,
    };
    trouble_text(alloc, program, trouble?).ok()
}

/// What helps to mend what was refused, by the trouble of the store and of the output, the texts
/// that were read, and the line at which a history or a view stops.
pub(crate) fn refusal_detail<S: Store, W: Say>(
    alloc: Global,
    program: Program,
    words: &[String],
    store: &S,
    say: &W,
    status: &Status,
    texts: &Texts,
    stop: Option<Stop>,
) -> Detail {
    let why = trouble_of(alloc, program, store, say, status);
    detail_of(alloc, program, words, status, why, texts, stop).unwrap_or(Detail::Nothing)
}
