//! A run that is taken again, line by line of its history.

ghost use Rattle.std.specs.Prelude.{◌≡◌, ◌+◌, ◌≤◌, ◌<◌, ◌++◌, true, [], length, drop, IfOk};
ghost use Rattle.std.specs.Prelude.{IfErr, List as list, MatchOption, OnOk, ℕ};
ghost use Rattle.lio_events.specs.JournalText.{entry_text};
ghost use Rattle.lio_events.specs.Printable.{IsPrintable};
ghost use Rattle.lio_calculus.specs.Sound.{IsSound};
ghost use Rattle.lio_calculus.specs.Step.{can};
ghost use Rattle.lio_calculus_runs.specs.Configuration.{NamesOnly};
ghost use Rattle.lio_calculus_runs.specs.Rounds.{IsComplete};
ghost use Rattle.lio_task.specs.Configuration.{configuration_of};
ghost use Rattle.lio_task.specs.Logs.{AreFresh};
ghost use Rattle.lio_audit.specs.History.{IsOneHistoryOf, Says, most_history_bytes};
ghost use Rattle.lio_audit.specs.Replay.{LineEndsAt, Refuses, Stands, TakesLine};

use crate::fault::AuditFault;
use lio_clauses::{Names, NoMemory};
use lio_events::{Journal, print_entry};
use lio_events_reading::actor_of;
use lio_syntax::Script;
use lio_task::{Config, StepFault};
use lio_values::Entry;
use std::alloc::Global;

/// The most bytes of a history.
pub const MOST_HISTORY_BYTES: usize = 268_435_456;

/// The first task that can take a turn, if one can.
pub(crate) fn first_to_move(config: &Config, script: &Script) -> Option<u32>
    requires { IsSound (configuration_of script.now config.now) }
    ensures { MatchOption result (IsComplete (configuration_of script.now config.now))
        (λ k. can (configuration_of script.now config.now) k ≡ true) }
{
    for k in 0..config.holders.len() {
        if config.can_move(script, k as u32) {
            return Some(k as u32);
        }
    }
    None
}

/// The length of an entry's line, if it stands at the front of bytes.
fn line_len(
    alloc: Global,
    entry: &Entry,
    bytes: &[u8],
    names: &Names,
) -> Result<Option<usize>, NoMemory>
    requires { IsPrintable names.now entry.now }
    ensures { IfOk result (λ len. MatchOption len
        ((rest : list ℕ) → bytes.now ≡ entry_text names.now true entry.now ++ rest → ⊥)
        (LineEndsAt (entry_text names.now true entry.now) bytes.now)) }
{
    let line = print_entry(alloc, entry, true, names)?;
    match bytes.strip_prefix(line.as_slice()) {
        Some(_) => Ok(Some(line.len())),
        None => Ok(None),
    }
}

/// The number of the line behind those of a journal's entries.
fn next_line(journal: &Journal) -> u32
    requires { length journal.now ≤ most_history_bytes }
    ensures { result ≡ length journal.now + 1 }
{
    journal.entries().len() as u32 + 1
}

/// Takes the turn whose line stands at the front of bytes, puts its entry last in the journal, and
/// gives the length of the line.
pub(crate) fn take_line(
    alloc: Global,
    config: &mut Config,
    journal: &mut Journal,
    script: &Script,
    bytes: &[u8],
    names: &Names,
) -> Result<usize, AuditFault>
    requires stands { Stands names.now script.now config.old journal.old }
    requires few { length journal.old + length bytes.now ≤ most_history_bytes }
    ensures ok { IfOk result (TakesLine names.now script.now config.old config.new journal.old
        journal.new bytes.now) }
    ensures err { IfErr result (Refuses names.now (configuration_of script.now config.old)
        journal.old bytes.now) }
{
    let line = next_line(journal);
    let ticket = journal.entries().len() as u64;
    let entry = match config.step(alloc, script, actor_of(bytes), ticket) {
        Ok(entry) => entry,
        Err(StepFault::Still(_)) => return Err(AuditFault::NotARun(line)),
        Err(StepFault::NoMemory) => return Err(AuditFault::NoMemory),
    };
    match line_len(alloc, &entry, bytes, names) {
        Ok(Some(len)) => {
            journal.push(entry)?;
            Ok(len)
        }
        Ok(None) => {
            drop(entry);
            Err(AuditFault::NotARun(line))
        }
        Err(NoMemory) => {
            drop(entry);
            Err(AuditFault::NoMemory)
        }
    }
}

/// Takes the turns of a history one after another, until nothing is left of it. Then no task may be
/// left that can take a turn.
fn replay(
    alloc: Global,
    config: &mut Config,
    journal: &mut Journal,
    script: &Script,
    bytes: &[u8],
    names: &Names,
) -> Result<(), AuditFault>
    requires stands { Stands names.now script.now config.old journal.old }
    requires nothing { journal.old ≡ [] }
    requires few { length bytes.now ≤ most_history_bytes }
    ensures ok { OnOk result (IsOneHistoryOf names.now (configuration_of script.now config.old)
        bytes.now (record {
          entries = journal.new;
          last = configuration_of script.now config.new;
        })) }
    ensures err { IfErr result
        (Says names.now (configuration_of script.now config.old) bytes.now) }
{
    let _ = names.len();
    let mut at = 0;
    while at < bytes.len() {
        at += take_line(alloc, config, journal, script, &bytes[at..], names)?;
    }
    match first_to_move(config, script) {
        None => Ok(()),
        Some(_) => Err(AuditFault::NotARun(next_line(journal))),
    }
}

/// Checks that bytes are the history of a complete run from a configuration, in which no node has
/// served a turn: it takes the run again and gives its journal and the configuration after it. Each
/// line has to be that of the next turn.
pub fn check_journal(
    alloc: Global,
    mut config: Config,
    script: &Script,
    bytes: &[u8],
    names: &Names,
) -> Result<(Journal, Config), AuditFault>
    requires sound { IsSound (configuration_of script.now config) }
    requires fresh { AreFresh config }
    requires named { NamesOnly names.now (configuration_of script.now config) }
    ensures ok { IfOk result (λ it. IsOneHistoryOf names.now
        (configuration_of script.now config) bytes.now (record {
          entries = it.0;
          last = configuration_of script.now it.1;
        })) }
    ensures err { IfErr result
        (Says names.now (configuration_of script.now config) bytes.now) }
{
    if bytes.len() > MOST_HISTORY_BYTES {
        return Err(AuditFault::NotARun(0));
    }
    let mut journal = Journal::new(alloc);
    match replay(alloc, &mut config, &mut journal, script, bytes, names) {
        Ok(()) => Ok((journal, config)),
        Err(fault) => Err(fault),
    }
}
