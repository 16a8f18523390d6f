//! Cases of a table of nodes at which two threads take turns, each with a seat of its own, until
//! each finds no task that can take one; the joined seat takes those that are left. That both
//! threads take turns isn't told.
ghost use Rattle.std.specs.Prelude.{◌≡◌, ◌^◌, ◌<◌, ◌≤◌, [], All, IfOk, length};
ghost use Rattle.lio_calculus.specs.Journals.{AreMergeable};
ghost use Rattle.lio_task.specs.Logs.{log_in};
ghost use Rattle.lio_table.specs.Closing.{HasRunTo};
ghost use Rattle.lio_table.specs.Tables.{IsSeatOf, first_of, view_of};
ghost use Rattle.lio_table.specs.Views.{rights};
ghost use Rattle.lio_workers.specs.Seated.{HasRights};

use crate::found::Found;
use crate::jobs::host_job;
use lio_clauses::NoMemory;
use lio_events::{Journal, channel_bytes};
use lio_host_main::Loaded;
use lio_outside::MemStore;
use lio_rounds::merge;
use lio_start::{Job, start};
use lio_syntax::Script;
use lio_table::{LioSeat, Table, TurnEnd};
use lio_task::Config;
use std::alloc::{AllocError, Global};
use std::sync::Wait;
use std::thread;
use std::thread::Threads;

/// How many tries in a row come to no turn before a thread ends.
const MOST_IN_VAIN: u32 = 1_000;

/// How many tickets each of two seats has: 2^61.
const HALF_OF_THE_TICKETS: u64 = 1 << 61;

/// Tries the turn of a task, and answers whether it took it.
fn try_turn(alloc: Global, table: &Table, seat: &mut LioSeat, script: &Script, k: u32) -> bool
    requires script { script.now ≡ (first_of table.now).script }
    requires seat { IsSeatOf table.now seat.old }
    requires bare { (view_of seat.old).claimed ≡ [] }
    requires left { 0 < (view_of seat.old).left }
    requires node { k < table.now.len }
    ensures seat { IsSeatOf table.now seat.new }
    ensures bare { (view_of seat.new).claimed ≡ [] }
    ensures rights { rights (view_of seat.new) ≡ rights (view_of seat.old) }
{
    match table.turn(alloc, seat, script, k) {
        Ok(end) => matches!(&end, TurnEnd::Moved(..)),
        Err(NoMemory) => false,
    }
}

/// Tries the turns of a table's tasks round and round, until so many tries in a row came to none.
fn take_turns<R: Wait>(rt: &R, alloc: Global, table: &Table, seat: &mut LioSeat, script: &Script)
    requires script { script.now ≡ (first_of table.now).script }
    requires seat { IsSeatOf table.now seat.old }
    requires bare { (view_of seat.old).claimed ≡ [] }
    ensures seat { IsSeatOf table.now seat.new }
    ensures bare { (view_of seat.new).claimed ≡ [] }
    ensures rights { rights (view_of seat.new) ≡ rights (view_of seat.old) }
{
    let mut in_vain = 0;
    for _ in rt.forever() {
        for k in 0..table.len() {
            if in_vain >= MOST_IN_VAIN || seat.tickets_left() == 0 {
                return;
            }
            if try_turn(alloc, table, seat, script, k) {
                in_vain = 0;
            } else {
                in_vain += 1;
            }
        }
    }
    unreachable!()
}

/// Lets threads take turns at a table, each with one of these seats, until each of them ends.
fn take_turns_beside<R: Threads + Wait + Sync>(
    rt: &R,
    alloc: Global,
    table: &Table,
    seats: &mut [LioSeat],
    script: &Script,
)
    requires script { script.now ≡ (first_of table.now).script }
    requires seats { All (HasRights table.now (2 ^ 61)) seats.old }
    ensures seats { All (HasRights table.now (2 ^ 61)) seats.new }
    ensures many { length seats.new ≡ length seats.old }
{
    thread::for_each_mut(
        rt,
        seats,
        2,
        &|_: usize, seat: &mut LioSeat|
            requires script { script.now ≡ (first_of table.now).script }
            requires seat { HasRights table.now (2 ^ 61) seat.old }
            ensures { HasRights table.entry.now (2 ^ 61) seat.new }
        { take_turns(rt, alloc, table, seat, script) },
    );
}

/// Two seats with half of the tickets of a table each.
fn halves(alloc: Global, table: &Table, first: LioSeat) -> Result<Vec<LioSeat>, AllocError>
    requires all { HasRights table.now (2 ^ 62) first }
    requires none_drawn { (view_of first).drawn ≡ [] }
    ensures seats { IfOk result (λ seats. All (HasRights table.now (2 ^ 61)) seats.items) }
    ensures two { IfOk result (λ seats. length seats.items ≡ 2) }
{
    let mut first = first;
    let second = table.split(&mut first, HALF_OF_THE_TICKETS);
    let mut seats = Vec::with_capacity(alloc, 2)?;
    seats.push_reserved(first);
    seats.push_reserved(second);
    Ok(seats)
}

/// Makes two seats with half of the tickets of a table each into one.
fn whole(table: &Table, mut seats: Vec<LioSeat>) -> LioSeat
    requires seats { All (HasRights table.now (2 ^ 61)) seats.items }
    requires two { length seats.items ≡ 2 }
    ensures { HasRights table.now (2 ^ 62) result }
{
    let (Some(other), Some(mut seat)) = (seats.pop(), seats.pop()) else {
        unreachable!()
    };
    table.join(&mut seat, other);
    seat
}

/// Lets two threads take turns at a table, each with half of the tickets, and then one seat those
/// that are left.
fn take_all_turns<R: Threads + Wait + Sync>(
    rt: &R,
    alloc: Global,
    table: &Table,
    first: LioSeat,
    script: &Script,
) -> Result<LioSeat, AllocError>
    requires script { script.now ≡ (first_of table.now).script }
    requires all { HasRights table.now (2 ^ 62) first }
    requires none_drawn { (view_of first).drawn ≡ [] }
    ensures { IfOk result (HasRights table.now (2 ^ 62)) }
{
    let mut seats = halves(alloc, table, first)?;
    take_turns_beside(rt, alloc, table, seats.as_mut_slice(), script);
    let mut seat = whole(table, seats);
    take_turns(rt, alloc, table, &mut seat, script);
    Ok(seat)
}

/// Ends a table.
pub(crate) fn close(alloc: Global, table: Table, seat: LioSeat) -> Result<Config, NoMemory>
    requires { HasRights table (2 ^ 62) seat }
    ensures mergeable { IfOk result (λ config. AreMergeable (log_in config)) }
    ensures ran { IfOk result (λ config. HasRunTo (first_of table) (view_of seat) config) }
{
    match table.close(alloc, seat) {
        Ok(config) => Ok(config),
        Err(refused) => {
            drop(refused);
            Err(NoMemory)
        }
    }
}

/// The merge of the logs of a table at which a job's tasks took all their turns.
fn journal_of<R: Threads + Wait + Sync>(
    rt: &R,
    alloc: Global,
    job: &Job,
) -> Result<Journal, NoMemory> {
    let script = job.script();
    let config = start(alloc, job)?;
    let (table, first) = Table::of_config(alloc, config, script)?;
    let seat = match take_all_turns(rt, alloc, &table, first, script) {
        Ok(seat) => seat,
        Err(refused) => return Err(NoMemory::from(refused)),
    };
    let config = close(alloc, table, seat)?;
    merge(alloc, &config)
}

/// What is told of the journal of a table: how many bytes each channel received.
fn journal_tells(alloc: Global, journal: &Journal, channels: usize) -> Result<String, NoMemory> {
    let mut text = String::new(alloc);
    for channel in 0..channels {
        let channel = u32::try_from(channel).unwrap_or(u32::MAX);
        let bytes = channel_bytes(alloc, journal, channel)?.len();
        text.push_str(format!(in alloc; "channel {channel} {bytes}\n")?.as_str())?;
    }
    Ok(text)
}

/// What is told of the table of a job.
fn tells<R: Threads + Wait + Sync>(rt: &R, alloc: Global, job: &Job) -> Result<Found, NoMemory> {
    let journal = journal_of(rt, alloc, job)?;
    let entries = journal.entries().len() as u64;
    let channels = job.policy().channels.as_slice().len();
    let mut found = Found::told(alloc, journal_tells(alloc, &journal, channels)?)?;
    found.entries = entries;
    Ok(found)
}

/// What is told of a case over a store.
pub(crate) fn run<R: AllocGlobal + Threads + Wait + Sync>(
    rt: &R,
    words: &[String],
    store: &mut MemStore,
) -> Result<Found, NoMemory> {
    let alloc = rt.alloc();
    match host_job(alloc, words, store) {
        Ok(Loaded { job, observer }) => { tells(rt, alloc, &job) }
        Err(status) => Found::refused(alloc, status),
    }
}
