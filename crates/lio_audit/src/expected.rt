//! The line with which a history that stops should have gone on.

ghost use Rattle.std.specs.Prelude.{◌≡◌, ◌≤◌, [], false, length, IfOk, MatchOption};
ghost use Rattle.lio_calculus.specs.Step.{can};
ghost use Rattle.lio_calculus.specs.Sound.{IsSound};
ghost use Rattle.lio_calculus_runs.specs.Configuration.{NamesOnly};
ghost use Rattle.lio_task.specs.Configuration.{configuration_of};
ghost use Rattle.lio_task.specs.Logs.{AreFresh};
ghost use Rattle.lio_audit.specs.Expected.{CouldGoOn, CouldNotGoOn, IsLineOf, IsNext};
ghost use Rattle.lio_audit.specs.Expected.{NoneIsNext};
ghost use Rattle.lio_audit.specs.History.{most_history_bytes};
ghost use Rattle.lio_audit.specs.Replay.{Stands};

use crate::fault::AuditFault;
use crate::replay::{first_to_move, take_line};
use lio_clauses::{Names, NoMemory};
use lio_events::{Journal, print_entry};
use lio_events_reading::actor_of;
use lio_syntax::Script;
use lio_task::{Config, StepFault};
use std::alloc::Global;

/// The task whose turn comes next: the one that these bytes show, or where there are none, the
/// first that can take one.
fn next_task(config: &Config, script: &Script, bytes: &[u8]) -> Option<u32>
    requires { IsSound (configuration_of script.now config.now) }
    ensures { MatchOption result
        (NoneIsNext (configuration_of script.now config.now) bytes.now)
        (IsNext (configuration_of script.now config.now) bytes.now) }
{
    if bytes.is_empty() {
        first_to_move(config, script)
    } else {
        Some(actor_of(bytes))
    }
}

/// The line of a task's next turn, if it can take one.
fn line_of(
    alloc: Global,
    config: &Config,
    script: &Script,
    k: u32,
    ticket: u64,
    names: &Names,
) -> Result<Option<Vec<u8>>, NoMemory>
    requires sound { IsSound (configuration_of script.now config.now) }
    requires named { NamesOnly names.now (configuration_of script.now config.now) }
    ensures { IfOk result (λ text. MatchOption text
        (can (configuration_of script.now config.now) k ≡ false)
        (λ t. IsLineOf names.now (configuration_of script.now config.now) k ticket t.items)) }
{
    match config.next_entry(alloc, script, k, ticket) {
        Ok(entry) => {
            let text = print_entry(alloc, &entry, true, names);
            drop(entry);
            Ok(Some(text?))
        }
        Err(StepFault::Still(_)) => Ok(None),
        Err(StepFault::NoMemory) => Err(NoMemory),
    }
}

/// Takes the turns of the lines before one, and gives the line of the turn behind them: of the task
/// that the line shows, or where no line is left, of the first that can take one.
fn line_behind(
    alloc: Global,
    config: &mut Config,
    journal: &mut Journal,
    script: &Script,
    bytes: &[u8],
    line: u32,
    names: &Names,
) -> Result<Option<Vec<u8>>, NoMemory>
    requires stands { Stands names.now script.now config.old journal.old }
    requires nothing { journal.old ≡ [] }
    requires first { 1 ≤ line }
    requires few { length bytes.now ≤ most_history_bytes }
    ensures { IfOk result (λ text. MatchOption text
        (CouldNotGoOn names.now (configuration_of script.now config.old) bytes.now line)
        (λ t. CouldGoOn names.now (configuration_of script.now config.old) bytes.now line
        t.items)) }
{
    let mut at = 0;
    let mut number = 1;
    while number < line && at < bytes.len() {
        match take_line(alloc, config, journal, script, &bytes[at..], names) {
            Ok(len) => at += len,
            Err(AuditFault::NotARun(_)) => return Ok(None),
            Err(AuditFault::NoMemory) => return Err(NoMemory),
        }
        number += 1;
    }
    if number < line {
        return Ok(None);
    }
    match next_task(config, script, &bytes[at..]) {
        Some(k) => line_of(
            alloc,
            config,
            script,
            k,
            journal.entries().len() as u64,
            names,
        ),
        None => Ok(None),
    }
}

/// The line with which a history that stops at a line, from 1, should have gone on there, from a
/// configuration in which no node has served a turn: that of the turn of the task that the line
/// shows, or where the line is missing, of the first task that can take one. Nothing where that
/// task can't, or the history stops before.
pub fn expected_line(
    alloc: Global,
    mut config: Config,
    script: &Script,
    bytes: &[u8],
    line: u32,
    names: &Names,
) -> Result<Option<Vec<u8>>, NoMemory>
    requires sound { IsSound (configuration_of script.now config) }
    requires fresh { AreFresh config }
    requires named { NamesOnly names.now (configuration_of script.now config) }
    requires few { length bytes.now ≤ most_history_bytes }
    requires line { 1 ≤ line }
    ensures { IfOk result (λ text. MatchOption text
        (CouldNotGoOn names.now (configuration_of script.now config) bytes.now line)
        (λ t. CouldGoOn names.now (configuration_of script.now config) bytes.now line t.items)) }
{
    let mut journal = Journal::new(alloc);
    line_behind(alloc, &mut config, &mut journal, script, bytes, line, names)
}
