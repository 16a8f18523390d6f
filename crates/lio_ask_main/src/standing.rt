//! Where the tasks of a run stood in each of its turns.

ghost use Rattle.std.specs.Prelude.{◌≡◌, ◌+◌, IfOk, OnOk, length};
ghost use Rattle.lio_calculus.specs.Sound.{IsSound};
ghost use Rattle.lio_task.specs.Configuration.{configuration_of};
ghost use Rattle.lio_task.specs.Logs.{AreFresh, IsLaterThanLogs};

use crate::past::{Past, begin};
use lio_clauses::NoMemory;
use lio_events::Journal;
use lio_syntax::Script;
use lio_syntax_lines::{Line, split_word, without_return};
use lio_task::{Config, StepFault, Task};
use std::alloc::Global;

/// Whether a line says something: it has words, and is no comment.
fn says(line: &[u8]) -> bool {
    match split_word(without_return(line).trim_ascii()) {
        Some(([b'#', ..], _)) | None => false,
        Some(_) => true,
    }
}

/// The numbers, from 1, of the lines of a script's text that say something, in their order.
pub fn said_lines(alloc: Global, text: &[u8]) -> Result<Vec<u32>, NoMemory> {
    let mut numbers = Vec::new(alloc);
    let mut number = 0u32;
    for line in text.split(|byte| *byte == b'\n') {
        number = number.saturating_add(1);
        if says(line) {
            numbers.push(number)?;
        }
    }
    Ok(numbers)
}

/// The place of the line at which a task stands; where it is behind its procedure, that of the
/// procedure's end.
fn place_of(script: &Script, task: &Task) -> usize {
    let place = task.line(script);
    match script.lines().get(place) {
        Some(Line::Proc(_, _)) | None => place.saturating_sub(1),
        Some(_) => place,
    }
}

/// The number of the line at which a task stands; 0 where there is none.
fn line_of(numbers: &[u32], config: &Config, script: &Script, k: u32) -> u32 {
    let Some(task) = config.task(k) else {
        return 0;
    };
    match numbers.get(place_of(script, task)) {
        Some(number) => *number,
        None => 0,
    }
}

/// Takes the turn of a task, where it can take one.
fn take_turn(
    alloc: Global,
    config: &mut Config,
    script: &Script,
    k: u32,
    ticket: u64,
) -> Result<(), NoMemory>
    requires sound { IsSound (configuration_of script.now config.old) }
    requires later { IsLaterThanLogs config.old ticket }
    ensures sound { OnOk result (IsSound (configuration_of script.now config.new)) }
    ensures later { OnOk result (IsLaterThanLogs config.new (ticket + 1)) }
{
    match config.step(alloc, script, k, ticket) {
        Ok(_entry) => Ok(()),
        Err(StepFault::Still(_)) => Ok(()),
        Err(StepFault::NoMemory) => Err(NoMemory),
    }
}

/// For each turn of a journal the number of the line at which its task stood, by the numbers of the
/// lines that say something: the turns are taken again from a configuration in which no node has
/// served one.
fn standing_from(
    alloc: Global,
    mut config: Config,
    script: &Script,
    said: &[u32],
    journal: &Journal,
) -> Result<Vec<u32>, NoMemory>
    requires sound { IsSound (configuration_of script.now config) }
    requires fresh { AreFresh config }
    ensures { IfOk result (λ numbers. length numbers.items ≡ length journal.now) }
{
    let entries = journal.entries();
    let mut numbers = Vec::new(alloc);
    for (place, entry) in entries.iter().enumerate() {
        numbers.push(line_of(said, &config, script, entry.actor))?;
        take_turn(alloc, &mut config, script, entry.actor, place as u64)?;
    }
    Ok(numbers)
}

/// For each turn of a journal the number of the line at which its task stood, from 1, in this text
/// of the script: the turns are taken again. It is for readers: no clause says which line it is.
pub(crate) fn standing(
    alloc: Global,
    past: &Past,
    text: &[u8],
    journal: &Journal,
) -> Result<Vec<u32>, NoMemory>
    ensures { IfOk result (λ numbers. length numbers.items ≡ length journal.now) }
{
    let said = said_lines(alloc, text)?;
    let config = begin(alloc, &past.job)?;
    standing_from(alloc, config, past.job.script(), said.as_slice(), journal)
}
