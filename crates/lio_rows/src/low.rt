//! Commands on turns of the erased calculus.
ghost use Rattle.std.specs.Prelude.{◌≡◌, All, IfOk};
ghost use Rattle.lio_values.specs.Purity.{IsContentPure};
ghost use Rattle.lio_calculus_runs.specs.NameLaws.{IsContentPrintable};
ghost use Rattle.lio_events.specs.Printable.{IsPrintable};
ghost use Rattle.lio_calculus.specs.Erased.{erase};
ghost use Rattle.lio_task.specs.Configuration.{configuration_of};
ghost use Rattle.lio_start.specs.Job.{first_of};
ghost use Rattle.lio_calculus_runs.specs.Configuration.{NamesOnly};
ghost use Rattle.lio_erasure.specs.Low.{LeavesOutBlanks, low_configuration_of};
ghost use Rattle.lio_erasure.specs.LowParts.{low_of};

use crate::refusal::{Answered, Refusal};
use crate::runs::{Source, read_viewer, released};
use crate::turns::push_refused;
use lio_clauses::{Names, NoMemory};
use lio_erasure::{Low, LowConfig, LowFault, erase_config};
use lio_events::{Contents, print_entry};
use lio_labels::Label;
use lio_rows_commands::Answer;
use lio_rows_fields::read_numbers;
use lio_start::{Job, start};
use lio_task::{Config, Holder};
use lio_values::Entry;
use std::alloc::{AllocError, Global};
use std::fmt::Write;

/// What is asked of the erased calculus.
#[derive(Clone, Copy)]
enum Asked {
    /// Turns, with what the run releases to the observer.
    Turns,
    /// Turns, with nothing released.
    TurnsUntold,
    /// The cells that are kept after turns, with what the run releases to the observer.
    Cells,
}

/// What a command on the erased calculus answers, if the word and the number of fields are those of
/// one.
pub fn answer(alloc: Global, word: &str, fields: &[Vec<u8>]) -> Answered {
    let asked = match word {
        "low" => Asked::Turns,
        "low_without" => Asked::TurnsUntold,
        "cells" => Asked::Cells,
        _ => return None,
    };
    match fields {
        [label, actors, json, script, inputs @ ..] => {
            let source = Source { script, inputs };
            Some(low(alloc, asked, label, actors, json, source))
        }
        _ => None,
    }
}

/// Copies the first configuration.
fn copied_start(alloc: Global, job: &Job) -> Result<Config, NoMemory>
    ensures { IfOk result (λ config. configuration_of job.now.script config ≡ first_of job.now) }
{
    let config = start(alloc, job)?;
    config.copy(alloc)
}

/// Gives what an observer sees of the first configuration.
fn seen_start(alloc: Global, job: &Job, observer: &Label) -> Result<LowConfig, NoMemory>
    ensures seen { IfOk result (λ seen.
        low_configuration_of job.now.script job.now.policy.longest seen
        ≡ erase observer.now (first_of job.now)) }
    ensures kept { IfOk result LeavesOutBlanks }
{
    let config = copied_start(alloc, job)?;
    erase_config(alloc, &config, observer)
}

/// Gives the erased calculus, from what an observer sees of the first configuration.
fn low_start(alloc: Global, job: &Job, observer: &Label) -> Result<Low, NoMemory>
    ensures { IfOk result (λ low. NamesOnly job.now.policy.names (low_of low).configuration) }
{
    let policy = job.policy();
    let script = job.script().copy(alloc)?;
    let observer = observer.copy(alloc)?;
    let seen = seen_start(alloc, job, &observer)?;
    Ok(Low::new(seen, observer, script, policy.longest))
}

/// The turn of a task. It names only principals that have names.
#[tactic(none)]
fn turn(
    alloc: Global,
    low: &mut Low,
    contents: &mut Contents,
    names: &Names,
    k: u32,
) -> Result<Entry, LowFault>
    requires named { NamesOnly names.now (low_of low.old).configuration }
    requires contents { All (IsContentPrintable names.now) contents.old }
    ensures entry { IfOk result (IsPrintable names.now) }
    ensures named { NamesOnly names.now (low_of low.new).configuration }
    ensures contents { All (IsContentPrintable names.now) contents.new }
{
    let _ = names;
    low.turn(alloc, k, contents)
}

/// Appends the line of an entry, without its ticket.
fn push_entry(alloc: Global, text: &mut Vec<u8>, entry: Entry, names: &Names) -> Result<(), Refusal>
    requires { IsPrintable names.now entry }
{
    let line = print_entry(alloc, &entry, false, names);
    drop(entry);
    Ok(text.extend_from_slice(line?.as_slice())?)
}

/// The text of the turns that were taken, and behind it why a task takes none.
fn stopped(alloc: Global, mut text: Vec<u8>, fault: LowFault) -> Result<Vec<u8>, Refusal> {
    match fault {
        LowFault::Still(k) => push_refused(alloc, &mut text, "still", k)?,
        LowFault::NoRelease(k) => push_refused(alloc, &mut text, "no release", k)?,
        LowFault::NoMemory => return Err(Refusal::from(NoMemory)),
    }
    Ok(text)
}

/// The turns of tasks, up to the first that takes none, and how many released contents are left.
fn turns(
    alloc: Global,
    low: &mut Low,
    contents: &mut Contents,
    names: &Names,
    schedule: &[u32],
) -> Result<Vec<u8>, Refusal>
    requires named { NamesOnly names.now (low_of low.old).configuration }
    requires contents { All (IsContentPrintable names.now) contents.old }
{
    let mut text = Vec::new(alloc);
    for k in schedule {
        match turn(alloc, low, contents, names, *k) {
            Ok(entry) => push_entry(alloc, &mut text, entry, names)?,
            Err(fault) => return stopped(alloc, text, fault),
        }
    }
    let left = contents.as_slice().len();
    text.extend_from_slice(format!(in alloc; "left {left}")?.as_bytes())?;
    Ok(text)
}

/// The numbers of the cells that aren't left out, with one blank between two.
fn kept(alloc: Global, cells: &[Option<Holder>]) -> Result<Vec<u8>, AllocError> {
    let mut text = String::new(alloc);
    for (number, cell) in cells.iter().enumerate() {
        if cell.is_some() {
            if !text.is_empty() {
                text.push_str(" ")?;
            }
            write!(text, "{number}")?;
        }
    }
    Ok(text.into_bytes())
}

/// The numbers of the cells that are kept after the turns of tasks, or why a task takes none.
fn cells(
    alloc: Global,
    low: &mut Low,
    contents: &mut Contents,
    schedule: &[u32],
) -> Result<Vec<u8>, Refusal>
    requires { All IsContentPure contents.old }
{
    for k in schedule {
        match low.turn(alloc, *k, contents) {
            Ok(entry) => drop(entry),
            Err(fault) => return stopped(alloc, Vec::new(alloc), fault),
        }
    }
    Ok(kept(alloc, low.config().as_slice())?)
}

/// Gives the contents that an observer is told: those that the run by rounds releases to it, or
/// none.
fn told(alloc: Global, job: &Job, observer: &Label, asked: Asked) -> Result<Contents, Refusal>
    ensures { IfOk result (All (IsContentPrintable job.now.policy.names)) }
{
    match asked {
        Asked::TurnsUntold => Ok(Contents::new(alloc)),
        Asked::Turns | Asked::Cells => released(alloc, job, observer),
    }
}

/// Gives what is asked after turns of tasks from the start of the run, with these contents.
fn asked_with(
    alloc: Global,
    job: &Job,
    observer: &Label,
    contents: &mut Contents,
    schedule: &[u32],
    asked: Asked,
) -> Result<Vec<u8>, Refusal>
    requires { All (IsContentPrintable job.now.policy.names) contents.old }
{
    let mut low = low_start(alloc, job, observer)?;
    let policy = job.policy();
    match asked {
        Asked::Cells => cells(alloc, &mut low, contents, schedule),
        Asked::Turns | Asked::TurnsUntold => {
            turns(alloc, &mut low, contents, &policy.names, schedule)
        }
    }
}

/// Gives what is asked after turns of tasks from the start of the run, with the contents that the
/// observer is told.
fn asked_of(
    alloc: Global,
    job: &Job,
    observer: &Label,
    schedule: &[u32],
    asked: Asked,
) -> Result<Answer, Refusal> {
    let mut contents = told(alloc, job, observer, asked)?;
    let text = asked_with(alloc, job, observer, &mut contents, schedule, asked)?;
    Ok(Answer::Text(text))
}

/// `low LABEL ACTORS JSON SCRIPT INPUT ..`: the turns of these tasks in the erased calculus, from
/// what an observer at the label sees of the start of the run, with what the run releases to it;
/// `low_without`: the same with nothing released; `cells`: the cells that are kept after these
/// turns.
fn low(
    alloc: Global,
    asked: Asked,
    label: &[u8],
    actors: &[u8],
    json: &[u8],
    source: Source<'_>,
) -> Result<Answer, Refusal> {
    let schedule = read_numbers(alloc, actors)?;
    let it = read_viewer(alloc, label, json, source)?;
    asked_of(alloc, &it.job, &it.observer, schedule.as_slice(), asked)
}
