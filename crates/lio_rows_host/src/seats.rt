//! Cases of a table of nodes with two seats: the second holds the node of the only task, which the
//! first wants, and gives it back.
ghost use Rattle.std.specs.Prelude.{◌≡◌, ◌^◌, [], All, IfOk};
ghost use Rattle.lio_events.specs.Printable.{IsPrintable};
ghost use Rattle.lio_start.specs.Job.{first_of as start_of};
ghost use Rattle.lio_table.specs.Tables.{IsSeatOf, first_of, view_of};
ghost use Rattle.lio_table.specs.Views.{configuration_from, rights};
ghost use Rattle.lio_workers.specs.Seated.{HasRights};

use crate::found::Found;
use crate::jobs::host_job;
use crate::tables::close;
use lio_clauses::NoMemory;
use lio_events::{Journal, print_journal};
use lio_host_main::Loaded;
use lio_outside::MemStore;
use lio_rounds::merge;
use lio_start::{Job, start};
use lio_syntax::Script;
use lio_table::{Claim, LioSeat, Table, TurnEnd};
use std::alloc::{AllocError, Global};
use std::str;

/// How many tickets the second seat has: 2^40.
const TICKETS_OF_THE_SECOND: u64 = 1 << 40;

/// The node of the only task.
const TASK: u32 = 1;

/// The table that the first configuration of a job becomes, and its first seat.
fn table_of(alloc: Global, job: &Job) -> Result<(Table, LioSeat), NoMemory>
    ensures script { IfOk result (λ both. (first_of both.0).script ≡ job.now.script) }
    ensures start { IfOk result (λ both. configuration_from (first_of both.0)
        ≡ start_of job.now) }
    ensures all { IfOk result (λ both. HasRights both.0 (2 ^ 62) both.1) }
    ensures none_drawn { IfOk result (λ both. (view_of both.1).drawn ≡ []) }
{
    let script = job.script();
    let config = start(alloc, job)?;
    Table::of_config(alloc, config, script)
}

/// The line that tells what a turn came to.
fn line_of(alloc: Global, end: &TurnEnd) -> Result<String, AllocError> {
    match end {
        TurnEnd::Moved(ticket, None, woken) if woken.as_slice().is_empty() => {
            format!(in alloc; "moved {ticket}\n")
        }
        TurnEnd::Moved(ticket, _, _) => {
            format!(in alloc; "moved {ticket}, with a birth or a waking\n")
        }
        TurnEnd::Busy(n) => format!(in alloc; "busy {n}\n"),
        TurnEnd::Still(k) => format!(in alloc; "still {k}\n"),
        TurnEnd::Over(k) => format!(in alloc; "over {k}\n"),
    }
}

/// Tries the turn of a task, and appends what it came to, or that it can't be tried.
fn push_turn(
    alloc: Global,
    text: &mut Vec<u8>,
    table: &Table,
    seat: &mut LioSeat,
    script: &Script,
    k: u32,
) -> Result<(), NoMemory>
    requires script { script.now ≡ (first_of table.now).script }
    requires seat { IsSeatOf table.now seat.old }
    requires bare { (view_of seat.old).claimed ≡ [] }
    ensures seat { IsSeatOf table.now seat.new }
    ensures bare { (view_of seat.new).claimed ≡ [] }
    ensures rights { rights (view_of seat.new) ≡ rights (view_of seat.old) }
{
    if k >= table.len() || seat.tickets_left() == 0 {
        return Ok(text.extend_from_slice(b"none\n")?);
    }
    let end = table.turn(alloc, seat, script, k)?;
    let line = line_of(alloc, &end);
    drop(end);
    Ok(text.extend_from_slice(line?.as_bytes())?)
}

/// Tries the turns of these tasks one after another, and appends what they came to.
fn push_turns(
    alloc: Global,
    text: &mut Vec<u8>,
    table: &Table,
    seat: &mut LioSeat,
    script: &Script,
    tasks: &[u32],
) -> Result<(), NoMemory>
    requires script { script.now ≡ (first_of table.now).script }
    requires seat { IsSeatOf table.now seat.old }
    requires bare { (view_of seat.old).claimed ≡ [] }
    ensures seat { IsSeatOf table.now seat.new }
    ensures bare { (view_of seat.new).claimed ≡ [] }
    ensures rights { rights (view_of seat.new) ≡ rights (view_of seat.old) }
{
    for k in tasks {
        push_turn(alloc, text, table, seat, script, *k)?;
    }
    Ok(())
}

/// Lets a seat try the turn of the task while another holds its node, and appends what it came to.
fn push_turn_beside(
    alloc: Global,
    text: &mut Vec<u8>,
    table: &Table,
    seat: &mut LioSeat,
    other: &mut LioSeat,
    script: &Script,
) -> Result<(), NoMemory>
    requires script { script.now ≡ (first_of table.now).script }
    requires seat { IsSeatOf table.now seat.old }
    requires bare { (view_of seat.old).claimed ≡ [] }
    requires other { IsSeatOf table.now other.old }
    requires other_bare { (view_of other.old).claimed ≡ [] }
    ensures seat { IsSeatOf table.now seat.new }
    ensures bare { (view_of seat.new).claimed ≡ [] }
    ensures rights { rights (view_of seat.new) ≡ rights (view_of seat.old) }
    ensures other { IsSeatOf table.now other.new }
    ensures other_bare { (view_of other.new).claimed ≡ [] }
    ensures other_rights { rights (view_of other.new) ≡ rights (view_of other.old) }
{
    if TASK >= table.len() {
        return Ok(text.extend_from_slice(b"none\n")?);
    }
    match table.claim(other, TASK) {
        Claim::Held => {
            let said = text.extend_from_slice(b"held\n");
            let pushed = push_turn(alloc, text, table, seat, script, TASK);
            table.give(other, TASK);
            said?;
            pushed
        }
        Claim::Busy => Ok(text.extend_from_slice(b"not held\n")?),
    }
}

/// What the turns of a seat came to, first while a second seat held the task's node and then once
/// it had given it back. The second seat is split off, and joined again.
fn turns_beside(
    alloc: Global,
    table: &Table,
    seat: &mut LioSeat,
    script: &Script,
) -> Result<Vec<u8>, NoMemory>
    requires script { script.now ≡ (first_of table.now).script }
    requires all { HasRights table.now (2 ^ 62) seat.old }
    requires none_drawn { (view_of seat.old).drawn ≡ [] }
    ensures { HasRights table.now (2 ^ 62) seat.new }
{
    let mut text = Vec::new(alloc);
    let mut other = table.split(seat, TICKETS_OF_THE_SECOND);
    let beside = push_turn_beside(alloc, &mut text, table, seat, &mut other, script);
    let after = push_turns(
        alloc,
        &mut text,
        table,
        seat,
        script,
        &[TASK, TASK, TASK, 0],
    );
    table.join(seat, other);
    beside?;
    after?;
    Ok(text)
}

/// Ends a table that a job began, and merges the logs of its nodes.
fn merged(alloc: Global, job: &Job, table: Table, seat: LioSeat) -> Result<Journal, NoMemory>
    requires start { configuration_from (first_of table) ≡ start_of job.now }
    requires all { HasRights table (2 ^ 62) seat }
    ensures { IfOk result (λ merged. All (IsPrintable job.now.policy.names) merged) }
{
    let _ = job.policy();
    let config = close(alloc, table, seat)?;
    merge(alloc, &config)
}

/// Ends a table that a job began, and gives the history.
fn history_of(alloc: Global, job: &Job, table: Table, seat: LioSeat) -> Result<Vec<u8>, NoMemory>
    requires start { configuration_from (first_of table) ≡ start_of job.now }
    requires all { HasRights table (2 ^ 62) seat }
{
    let journal = merged(alloc, job, table, seat)?;
    let policy = job.policy();
    print_journal(alloc, &journal, true, &policy.names)
}

/// What is told of two seats at the table of a job, and then the history.
fn told_of(alloc: Global, job: &Job) -> Result<Vec<u8>, NoMemory> {
    let (table, mut seat) = table_of(alloc, job)?;
    let mut text = turns_beside(alloc, &table, &mut seat, job.script())?;
    let history = history_of(alloc, job, table, seat)?;
    text.extend_from_slice(history.as_slice())?;
    Ok(text)
}

/// What is told of the table of a job, as text.
fn tells(alloc: Global, job: &Job) -> Result<Found, NoMemory> {
    let told = told_of(alloc, job)?;
    let text = str::from_utf8(told.as_slice()).unwrap_or("");
    Found::told(alloc, String::from_str(alloc, text)?)
}

/// What is told of a case over a store. A turn of a task whose node another seat holds is told Busy
/// and draws no ticket; once the node is given back, the task takes its turns until it is over, and
/// a node with no task is over.
pub(crate) fn run(
    alloc: Global,
    words: &[String],
    store: &mut MemStore,
) -> Result<Found, NoMemory> {
    match host_job(alloc, words, store) {
        Ok(Loaded { job, observer }) => { tells(alloc, &job) }
        Err(status) => Found::refused(alloc, status),
    }
}
