//! Commands by which an observer checks its view, and computes it.
ghost use Rattle.std.specs.Prelude.{All, IfOk};
ghost use Rattle.lio_calculus_runs.specs.NameLaws.{IsContentPrintable};
ghost use Rattle.lio_events.specs.Printable.{IsPrintable};

use crate::refusal::{Answered, Refusal};
use crate::runs::{Source, read_viewer, released};
use lio_audit::{RerunFault, ViewFault, check_view, low_start_of, rerun_view};
use lio_clauses::NoMemory;
use lio_events::{Contents, Journal, print_journal};
use lio_labels::Label;
use lio_rows_commands::Answer;
use lio_start::Job;
use std::alloc::Global;

/// What a command of an observer answers, if the word and the number of fields are those of one.
pub fn answer(alloc: Global, word: &str, fields: &[Vec<u8>]) -> Answered {
    match (word, fields) {
        ("seen", [label, view, json, script, inputs @ ..]) => {
            Some(seen(alloc, label, view, json, Source { script, inputs }))
        }
        ("rerun", [label, json, script, inputs @ ..]) => {
            Some(rerun(alloc, label, true, json, Source { script, inputs }))
        }
        ("rerun_without", [label, json, script, inputs @ ..]) => {
            Some(rerun(alloc, label, false, json, Source { script, inputs }))
        }
        _ => None,
    }
}

/// Tells whether a view is one, with its number of lines, and else the line at which it isn't.
fn told(alloc: Global, checked: Result<u32, ViewFault>) -> Result<Answer, Refusal> {
    let text = match checked {
        Ok(lines) => format!(in alloc; "ok {lines}")?,
        Err(ViewFault::NotAView(line)) => format!(in alloc; "NotAView({line})")?,
        Err(ViewFault::NoMemory) => return Err(Refusal::from(NoMemory)),
    };
    Ok(Answer::Text(text.into_bytes()))
}

/// Checks a view against what an observer holds of a job.
fn seen_of(alloc: Global, job: &Job, observer: &Label, view: &[u8]) -> Result<Answer, Refusal> {
    let start = low_start_of(alloc, job, observer)?;
    let policy = job.policy();
    told(
        alloc,
        check_view(
            alloc,
            start,
            observer,
            job.script(),
            policy.longest,
            view,
            &policy.names,
        ),
    )
}

/// `seen LABEL VIEW JSON SCRIPT INPUT ..`: whether the view is that of a complete run of what is
/// run, as an observer at the label sees it, or the line at which it isn't.
fn seen(
    alloc: Global,
    label: &[u8],
    view: &[u8],
    json: &[u8],
    source: Source<'_>,
) -> Result<Answer, Refusal> {
    let it = read_viewer(alloc, label, json, source)?;
    seen_of(alloc, &it.job, &it.observer, view)
}

/// The contents that the run of a job by rounds releases to an observer, or none.
fn contents_of(alloc: Global, job: &Job, observer: &Label, told: bool) -> Result<Contents, Refusal>
    ensures { IfOk result (All (IsContentPrintable job.now.policy.names)) }
{
    if told {
        released(alloc, job, observer)
    } else {
        Ok(Contents::new(alloc))
    }
}

/// The view that an observer has computed, and the number of contents that are left.
fn computed(alloc: Global, job: &Job, journal: &Journal, left: &Contents) -> Result<Answer, Refusal>
    requires { All (IsPrintable job.now.policy.names) journal.now }
{
    let policy = job.policy();
    let mut text = print_journal(alloc, journal, false, &policy.names)?;
    let count = left.as_slice().len();
    text.extend_from_slice(format!(in alloc; "left {count}")?.as_bytes())?;
    Ok(Answer::Text(text))
}

/// Computes the view of a job by rounds, from what an observer holds.
fn rerun_of(alloc: Global, job: &Job, observer: &Label, told: bool) -> Result<Answer, Refusal> {
    let contents = contents_of(alloc, job, observer, told)?;
    let start = low_start_of(alloc, job, observer)?;
    let policy = job.policy();
    match rerun_view(
        alloc,
        start,
        observer,
        job.script(),
        policy.longest,
        contents,
    ) {
        Ok((journal, left)) => computed(alloc, job, &journal, &left),
        Err(RerunFault::NoRelease(k)) => {
            Ok(Answer::Text(format!(in alloc; "no release {k}")?.into_bytes()))
        }
        Err(RerunFault::NoMemory) => Err(Refusal::from(NoMemory)),
    }
}

/// `rerun LABEL JSON SCRIPT INPUT ..`: the view of the run by rounds that an observer at the label
/// computes with what the run releases to it, and the number of contents that are left;
/// `rerun_without`: the same with nothing released.
fn rerun(
    alloc: Global,
    label: &[u8],
    told: bool,
    json: &[u8],
    source: Source<'_>,
) -> Result<Answer, Refusal> {
    let it = read_viewer(alloc, label, json, source)?;
    rerun_of(alloc, &it.job, &it.observer, told)
}
