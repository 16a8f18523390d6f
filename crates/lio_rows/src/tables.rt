//! Commands on turns at a table of nodes.
ghost use Rattle.std.specs.Prelude.{◌≡◌, ◌+◌, ◌<◌, ◌≤◌, [], All, IfOk, length};
ghost use Rattle.lio_events.specs.Printable.{IsPrintable};
ghost use Rattle.lio_rows.specs.Tables.{Begins, IsOnlySeat};
ghost use Rattle.lio_table.specs.Closing.{HasRunTo};
ghost use Rattle.lio_table.specs.Tables.{first_of, view_of};

use crate::refusal::{Answered, Refusal};
use crate::runs::{Source, read_job};
use crate::turns::push_refused;
use lio_cells::{Waiter, Wish};
use lio_clauses::NoMemory;
use lio_events::{Journal, print_journal};
use lio_rounds::merge;
use lio_rows_commands::Answer;
use lio_rows_fields::read_numbers;
use lio_start::{Job, start};
use lio_syntax::Script;
use lio_table::{LioSeat, Table, TurnEnd};
use lio_task::Config;
use std::alloc::{AllocError, Global};

/// What a command on tables answers, if the word and the number of fields are those of one.
pub fn answer(alloc: Global, word: &str, fields: &[Vec<u8>]) -> Answered {
    match (word, fields) {
        ("table", [actors, json, script, inputs @ ..]) => {
            Some(table(alloc, actors, json, Source { script, inputs }))
        }
        _ => None,
    }
}

/// The table that the first configuration of a job becomes, and its only seat.
fn table_of(alloc: Global, job: &Job) -> Result<(Table, LioSeat), NoMemory>
    ensures begins { IfOk result (λ both. Begins job.now both.0) }
    ensures seat { IfOk result (λ both. IsOnlySeat both.0 both.1) }
    ensures none_drawn { IfOk result (λ both. (view_of both.1).drawn ≡ []) }
{
    let script = job.script();
    let config = start(alloc, job)?;
    Table::of_config(alloc, config, script)
}

/// The word for what a task waits for.
fn word_of(wish: Wish) -> &'static str {
    match wish {
        Wish::Take => "take",
        Wish::Put => "put",
        Wish::Wait => "wait",
    }
}

/// Appends the ticket of a turn that was taken, the number of the task to which it gave birth, and
/// who is woken, each with what it waited for.
fn push_moved(
    alloc: Global,
    text: &mut Vec<u8>,
    ticket: u64,
    born: Option<u32>,
    woken: &[Waiter],
) -> Result<(), AllocError> {
    text.extend_from_slice(format!(in alloc; "moved {ticket}")?.as_bytes())?;
    if let Some(child) = born {
        text.extend_from_slice(format!(in alloc; " born {child}")?.as_bytes())?;
    }
    for waiter in woken {
        let task = waiter.task;
        let wish = word_of(waiter.wish);
        text.extend_from_slice(format!(in alloc; " woken {task} {wish}")?.as_bytes())?;
    }
    Ok(())
}

/// Appends what a turn came to.
fn push_end(alloc: Global, text: &mut Vec<u8>, end: &TurnEnd) -> Result<(), AllocError> {
    match end {
        TurnEnd::Moved(ticket, born, woken) => {
            push_moved(alloc, text, *ticket, *born, woken.as_slice())
        }
        TurnEnd::Busy(n) => push_refused(alloc, text, "busy", *n),
        TurnEnd::Still(k) => push_refused(alloc, text, "still", *k),
        TurnEnd::Over(k) => push_refused(alloc, text, "over", *k),
    }
}

/// Lets a task take its turn at a table, and appends what it came to, or that there is no such
/// node.
fn push_turn(
    alloc: Global,
    text: &mut Vec<u8>,
    table: &Table,
    seat: &mut LioSeat,
    script: &Script,
    k: u32,
) -> Result<(), Refusal>
    requires script { script.now ≡ (first_of table.now).script }
    requires seat { IsOnlySeat table.now seat.old }
    requires left { 0 < (view_of seat.old).left }
    ensures seat { IsOnlySeat table.now seat.new }
    ensures drawn { length (view_of seat.new).drawn ≤ length (view_of seat.old).drawn + 1 }
{
    if k >= table.len() {
        return Ok(push_refused(alloc, text, "none", k)?);
    }
    let end = table.turn(alloc, seat, script, k)?;
    let pushed = push_end(alloc, text, &end);
    drop(end);
    Ok(pushed?)
}

/// What the turns of the tasks of a schedule came to, a line each.
fn turns(
    alloc: Global,
    table: &Table,
    seat: &mut LioSeat,
    script: &Script,
    schedule: &[u32],
) -> Result<Vec<u8>, Refusal>
    requires script { script.now ≡ (first_of table.now).script }
    requires seat { IsOnlySeat table.now seat.old }
    requires none_drawn { (view_of seat.old).drawn ≡ [] }
    ensures seat { IsOnlySeat table.now seat.new }
{
    let mut text = Vec::new(alloc);
    for k in schedule {
        push_turn(alloc, &mut text, table, seat, script, *k)?;
        text.extend_from_slice(b"\n")?;
    }
    Ok(text)
}

/// Ends a table by its only seat.
fn closed(alloc: Global, table: Table, seat: LioSeat) -> Result<Config, NoMemory>
    requires seat { IsOnlySeat table seat }
    ensures { IfOk result (λ config. HasRunTo (first_of table) (view_of seat) config) }
{
    match table.close(alloc, seat) {
        Ok(config) => Ok(config),
        Err(refused) => {
            drop(refused);
            Err(NoMemory)
        }
    }
}

/// Ends a table that a job began, and merges the logs of its nodes.
fn merged(alloc: Global, job: &Job, table: Table, seat: LioSeat) -> Result<Journal, NoMemory>
    requires begins { Begins job.now table }
    requires seat { IsOnlySeat table seat }
    ensures { IfOk result (λ merged. All (IsPrintable job.now.policy.names) merged) }
{
    let _ = job.policy();
    let config = closed(alloc, table, seat)?;
    merge(alloc, &config)
}

/// Ends a table that a job began, and appends the history that the logs of its nodes give.
fn push_history(
    alloc: Global,
    text: &mut Vec<u8>,
    job: &Job,
    table: Table,
    seat: LioSeat,
) -> Result<(), NoMemory>
    requires begins { Begins job.now table }
    requires seat { IsOnlySeat table seat }
{
    let journal = merged(alloc, job, table, seat)?;
    let policy = job.policy();
    let history = print_journal(alloc, &journal, true, &policy.names)?;
    Ok(text.extend_from_slice(history.as_slice())?)
}

/// Tells the turns of the tasks of a schedule at a table, and then the history.
fn told(alloc: Global, job: &Job, schedule: &[u32]) -> Result<Answer, Refusal> {
    let (table, mut seat) = table_of(alloc, job)?;
    let mut text = turns(alloc, &table, &mut seat, job.script(), schedule)?;
    push_history(alloc, &mut text, job, table, seat)?;
    Ok(Answer::Text(text))
}

/// `table ACTORS JSON SCRIPT INPUT ..`: what the turns of these tasks at a table with one seat come
/// to, one after another, and then the history that the logs of its nodes give.
fn table(alloc: Global, actors: &[u8], json: &[u8], source: Source<'_>) -> Result<Answer, Refusal> {
    let schedule = read_numbers(alloc, actors)?;
    let job = read_job(alloc, json, source)?;
    told(alloc, &job, schedule.as_slice())
}
