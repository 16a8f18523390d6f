//! Commands on the logs of the nodes after a run.
ghost use Rattle.std.specs.Prelude.{ℕ, All, IfOk};
ghost use Rattle.lio_events.specs.Printable.{IsPrintable};
ghost use Rattle.lio_task.specs.Logs.{log_in};
ghost use Rattle.lio_rounds.specs.Runs.{HasItsLogs};

use crate::refusal::{Answered, Refusal};
use crate::runs::{Source, read_job};
use crate::turns::push_refused;
use lio_clauses::{Names, NoMemory};
use lio_events::{Journal, print_entry, print_journal};
use lio_rounds::{Ran, merge, run};
use lio_rows_commands::Answer;
use lio_rows_fields::read_number;
use lio_start::Job;
use lio_task::Config;
use lio_values::Entry;
use std::alloc::Global;

/// What a command on logs answers, if the word and the number of fields are those of one.
pub fn answer(alloc: Global, word: &str, fields: &[Vec<u8>]) -> Answered {
    match (word, fields) {
        ("merge", [json, script, inputs @ ..]) => {
            Some(merged(alloc, json, Source { script, inputs }))
        }
        ("log", [number, json, script, inputs @ ..]) => {
            Some(log(alloc, number, json, Source { script, inputs }))
        }
        _ => None,
    }
}

/// Runs a job by rounds.
fn ran_of(alloc: Global, job: &Job) -> Result<Ran, Refusal>
    ensures printable { IfOk result (λ ran. All (IsPrintable job.now.policy.names) ran.journal) }
    ensures logs { IfOk result HasItsLogs }
{
    Ok(run(alloc, job)?)
}

/// Gives the merge of the logs after the run by rounds of a job.
fn merge_of(alloc: Global, job: &Job) -> Result<Journal, Refusal>
    ensures { IfOk result (λ merged. All (IsPrintable job.now.policy.names) merged) }
{
    let ran = ran_of(alloc, job)?;
    let merged = merge(alloc, &ran.config)?;
    Ok(merged)
}

/// Gives that merge as text.
fn merge_told(alloc: Global, job: &Job) -> Result<Answer, Refusal> {
    let journal = merge_of(alloc, job)?;
    let policy = job.policy();
    let text = print_journal(alloc, &journal, true, &policy.names)?;
    Ok(Answer::Text(text))
}

/// `merge JSON SCRIPT INPUT ..`: the history that the merge of the logs after the run gives.
fn merged(alloc: Global, json: &[u8], source: Source<'_>) -> Result<Answer, Refusal> {
    let job = read_job(alloc, json, source)?;
    merge_told(alloc, &job)
}

/// The lines of entries.
fn lines_of(alloc: Global, entries: &[Entry], names: &Names) -> Result<Vec<u8>, NoMemory>
    requires { All (IsPrintable names.now) entries.now }
{
    let mut text = Vec::new(alloc);
    for entry in entries {
        text.extend_from_slice(print_entry(alloc, entry, true, names)?.as_slice())?;
    }
    Ok(text)
}

/// The lines of the log of a node, or that there is no such node.
fn log_of(alloc: Global, config: &Config, number: u32, names: &Names) -> Result<Vec<u8>, NoMemory>
    requires { (n : ℕ) → All (IsPrintable names.now) (log_in config.now n) }
{
    match config.holders.get(number as usize) {
        Some(holder) => lines_of(alloc, holder.node.log(), names),
        None => {
            let mut text = Vec::new(alloc);
            push_refused(alloc, &mut text, "none", number)?;
            Ok(text)
        }
    }
}

/// Gives the configuration after the run by rounds of a job.
fn last_of(alloc: Global, job: &Job) -> Result<Config, Refusal>
    ensures { IfOk result (λ config. (n : ℕ)
        → All (IsPrintable job.now.policy.names) (log_in config n)) }
{
    let ran = ran_of(alloc, job)?;
    Ok(ran.config)
}

/// Gives the log of a node after the run by rounds of a job, as text.
fn log_told(alloc: Global, job: &Job, number: u32) -> Result<Answer, Refusal> {
    let config = last_of(alloc, job)?;
    let policy = job.policy();
    let text = log_of(alloc, &config, number, &policy.names)?;
    Ok(Answer::Text(text))
}

/// `log N JSON SCRIPT INPUT ..`: the log of node N after the run, or `none N` where there is no
/// such node.
fn log(alloc: Global, number: &[u8], json: &[u8], source: Source<'_>) -> Result<Answer, Refusal> {
    let number = read_number(number)?;
    let job = read_job(alloc, json, source)?;
    log_told(alloc, &job, number)
}
