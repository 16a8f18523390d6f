//! Commands that check histories.
ghost use Rattle.std.specs.Prelude.{IfOk};
ghost use Rattle.lio_calculus.specs.Sound.{IsSound};
ghost use Rattle.lio_calculus_runs.specs.Configuration.{NamesOnly};
ghost use Rattle.lio_task.specs.Configuration.{configuration_of};
ghost use Rattle.lio_task.specs.Logs.{AreFresh};

use crate::refusal::{Answered, Refusal};
use crate::runs::{Source, read_job};
use lio_audit::{AuditFault, check_journal};
use lio_clauses::NoMemory;
use lio_events::Journal;
use lio_rows_commands::Answer;
use lio_start::{Job, start};
use lio_task::Config;
use std::alloc::Global;

/// What a command on histories answers, if the word and the number of fields are those of one.
pub fn answer(alloc: Global, word: &str, fields: &[Vec<u8>]) -> Answered {
    match (word, fields) {
        ("check", [history, json, script, inputs @ ..]) => {
            Some(check(alloc, history, json, Source { script, inputs }))
        }
        _ => None,
    }
}

/// Gives the configuration in which the run of a job begins.
fn first_of(alloc: Global, job: &Job) -> Result<Config, NoMemory>
    ensures sound { IfOk result (λ config. IsSound (configuration_of job.now.script config)) }
    ensures named { IfOk result (λ config. NamesOnly job.now.policy.names
        (configuration_of job.now.script config)) }
    ensures fresh { IfOk result AreFresh }
{
    let _ = job.policy();
    start(alloc, job)
}

/// Tells whether a history is that of a run, and else the line at which it stops being one.
fn told(alloc: Global, checked: Result<(Journal, Config), AuditFault>) -> Result<Answer, Refusal> {
    let text = match checked {
        Ok(_run) => String::from_str(alloc, "ok")?,
        Err(AuditFault::NotARun(line)) => format!(in alloc; "NotARun({line})")?,
        Err(AuditFault::NoMemory) => return Err(Refusal::from(NoMemory)),
    };
    Ok(Answer::Text(text.into_bytes()))
}

/// Checks a history against a job.
fn check_of(alloc: Global, job: &Job, history: &[u8]) -> Result<Answer, Refusal> {
    let policy = job.policy();
    let script = job.script();
    let config = first_of(alloc, job)?;
    told(
        alloc,
        check_journal(alloc, config, script, history, &policy.names),
    )
}

/// `check HISTORY JSON SCRIPT INPUT ..`: whether the history is that of a complete run of what is
/// run, in any order of its tasks, or the line at which it isn't.
fn check(
    alloc: Global,
    history: &[u8],
    json: &[u8],
    source: Source<'_>,
) -> Result<Answer, Refusal> {
    let job = read_job(alloc, json, source)?;
    check_of(alloc, &job, history)
}
