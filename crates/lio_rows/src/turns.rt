//! Commands on turns in an order that the command says.
ghost use Rattle.std.specs.Prelude.{All, IfOk};
ghost use Rattle.lio_events.specs.Printable.{IsPrintable};

use crate::refusal::{Answered, Refusal};
use crate::runs::{Source, read_job};
use lio_events::{Journal, print_journal};
use lio_rounds::{Scheduled, run_by_schedule};
use lio_rows_commands::Answer;
use lio_rows_fields::read_numbers;
use lio_start::Job;
use std::alloc::{AllocError, Global};

/// What a command on turns answers, if the word and the number of fields are those of one.
pub fn answer(alloc: Global, word: &str, fields: &[Vec<u8>]) -> Answered {
    match (word, fields) {
        ("turns", [actors, json, script, inputs @ ..]) => {
            Some(turns(alloc, actors, json, Source { script, inputs }))
        }
        _ => None,
    }
}

/// Appends why a task takes no turn.
pub fn push_refused(
    alloc: Global,
    text: &mut Vec<u8>,
    why: &str,
    k: u32,
) -> Result<(), AllocError> {
    text.extend_from_slice(format!(in alloc; "{why} {k}")?.as_bytes())
}

/// What a schedule gave: the journal, and of each task of the schedule whether it took its turn.
#[derive(Drop)]
struct Taken {
    journal: Journal,
    taken: Vec<bool>,
}

/// Takes the turns of the tasks of a schedule.
fn turns_of(alloc: Global, job: &Job, schedule: &[u32]) -> Result<Taken, Refusal>
    ensures { IfOk result (λ taken. All (IsPrintable job.now.policy.names) taken.journal) }
{
    let Scheduled { ran, taken } = run_by_schedule(alloc, job, schedule)?;
    Ok(Taken {
        journal: ran.journal,
        taken,
    })
}

/// The line of each turn that was taken, and which task took none.
fn lines(
    alloc: Global,
    history: &[u8],
    schedule: &[u32],
    taken: &[bool],
) -> Result<Vec<u8>, AllocError> {
    let mut entries = history.split(|byte| *byte == b'\n');
    let mut text = Vec::new(alloc);
    for (i, k) in schedule.iter().enumerate() {
        if taken.get(i) == Some(&true) {
            text.extend_from_slice(entries.next().unwrap_or(b""))?;
        } else {
            push_refused(alloc, &mut text, "still", *k)?;
        }
        text.push(b'\n')?;
    }
    Ok(text)
}

/// Tells the turns of the tasks of a schedule, each by its entry, or as `still` where the task
/// can't take it.
fn told(alloc: Global, job: &Job, schedule: &[u32]) -> Result<Answer, Refusal> {
    let Taken { journal, taken } = turns_of(alloc, job, schedule)?;
    let policy = job.policy();
    let history = print_journal(alloc, &journal, true, &policy.names)?;
    let text = lines(alloc, history.as_slice(), schedule, taken.as_slice())?;
    Ok(Answer::Text(text))
}

/// `turns ACTORS JSON SCRIPT INPUT ..`: the turns of these tasks one after another, each told by
/// its entry, or as `still` where the task can't take it.
fn turns(alloc: Global, actors: &[u8], json: &[u8], source: Source<'_>) -> Result<Answer, Refusal> {
    let schedule = read_numbers(alloc, actors)?;
    let job = read_job(alloc, json, source)?;
    told(alloc, &job, schedule.as_slice())
}
