//! Runs by workers.
ghost use Rattle.std.specs.Prelude.{◌≡◌, ◌<◌, ◌≤◌, ◌+◌, ◌^◌, [], IfOk, length};
ghost use Rattle.lio_calculus.specs.Journals.{HaveSameEntries};
ghost use Rattle.lio_calculus_runs.specs.WellFormed.{IsWellFormed};
ghost use Rattle.lio_task.specs.Configuration.{configuration_of};
ghost use Rattle.lio_task.specs.Logs.{AreFresh};
ghost use Rattle.lio_rounds.specs.Runs.{HasItsLogs, IsCompleteRun, IsMergeOfLogs, ran_of};
ghost use Rattle.lio_runq.specs.Passes.{IsPassOf, left_of};
ghost use Rattle.lio_table.specs.Tables.{first_of, view_of};
ghost use Rattle.lio_table.specs.Views.{configuration_from};
ghost use Rattle.lio_workers.specs.Seated.{AreWorkersAt, HasRights, IsWorkerAt};

use crate::gate::Gate;
use crate::seats::{rejoin, workers};
use crate::shared::Shared;
use crate::worker::{Worker, push, work};
use lio_clauses::NoMemory;
use lio_rounds::{Machine, Ran, put_in_order};
use lio_runq::{Bound, RunPass, RunQueue};
use lio_syntax::Script;
use lio_table::{LioSeat, Table};
use lio_task::Config;
use lio_values::Entry;
use std::alloc::Global;
use std::marker::Brand;
use std::sync::Wait;
use std::thread;
use std::thread::Threads;

/// Puts the numbers of a configuration's tasks into the queue.
fn fill<R: Wait, B: Bound>(rt: &R, numbers: &RunQueue<B>, pass: &mut RunPass<B>, config: &Config)
    requires pass { IsPassOf numbers.now.numbers pass.old.seat }
    requires bound { length config.now.holders.items ≡ B.bound }
    requires few { B.bound < 2 ^ 31 }
    ensures pass { IsPassOf numbers.now.numbers pass.new.seat }
    ensures left { left_of pass.old.seat ≤ left_of pass.new.seat + B.bound }
{
    for (k, holder) in config.holders.iter().enumerate() {
        if holder.task.is_some() {
            push(rt, numbers, pass, k as u32);
        }
    }
}

/// Ends a table, takes the turns that the workers left, and ends the run. The entries are those of
/// the turns that were taken.
fn close(
    alloc: Global,
    table: Table,
    seat: LioSeat,
    script: Script,
    mut entries: Vec<Entry>,
) -> Result<Ran, NoMemory>
    requires seat { HasRights table (2 ^ 62) seat }
    requires entries { HaveSameEntries entries.items (view_of seat).drawn }
    requires script { script ≡ (first_of table).script }
    requires well_formed { IsWellFormed (configuration_from (first_of table)) }
    ensures run { IfOk result
        (λ ran. IsCompleteRun (configuration_from (first_of table)) (ran_of script ran)) }
    ensures logs { IfOk result HasItsLogs }
{
    put_in_order(&mut entries)?;
    let config = match table.close(alloc, seat) {
        Ok(config) => config,
        Err(_) => return Err(NoMemory),
    };
    let mut machine = Machine::resumed(alloc, entries, config, script)?;
    match machine.run(alloc) {
        Ok(()) => {
            let (journal, config) = machine.finish();
            Ok(Ran { journal, config })
        }
        Err(NoMemory) => Err(NoMemory),
    }
}

/// Lets workers take the turns of a table's tasks, until each of them ends.
fn let_work<R: Threads + Wait + Sync, G: Gate + Sync, B: Bound + Send + Sync>(
    rt: &R,
    alloc: Global,
    shared: &Shared<B>,
    script: &Script,
    workers: &mut [Worker<B>],
    count: u32,
    gate: &G,
)
    requires count { 1 ≤ count }
    requires script { script.now ≡ (first_of shared.now.table).script }
    requires workers { AreWorkersAt shared.now workers.old }
    ensures workers { AreWorkersAt shared.now workers.new }
    ensures many { length workers.new ≡ length workers.old }
{
    thread::for_each_mut(
        rt,
        workers,
        count as usize,
        &|_: usize, worker: &mut Worker<B>|
            requires script { script.now ≡ (first_of shared.now.table).script }
            requires worker { IsWorkerAt shared.now worker.old }
            ensures { IsWorkerAt shared.entry.now worker.new }
        { work(rt, alloc, shared, script, gate, worker) },
    );
}

/// Lets workers take the turns of a table's tasks. The first seat has all tickets again then. It
/// gives the entries of the turns.
fn share<R: Threads + Wait + Sync, G: Gate + Sync, B: Bound + Send + Sync>(
    rt: &R,
    alloc: Global,
    shared: &Shared<B>,
    first: &mut LioSeat,
    mut pass: RunPass<B>,
    script: &Script,
    count: u32,
    gate: &G,
) -> Result<Vec<Entry>, NoMemory>
    requires all { HasRights shared.now.table (2 ^ 62) first.old }
    requires none_drawn { (view_of first.old).drawn ≡ [] }
    requires bound { B.bound ≡ shared.now.table.len }
    requires pass { IsPassOf shared.now.numbers.numbers pass.seat }
    requires pushes { 2 ^ 60 ≤ left_of pass.seat }
    requires script { script.now ≡ (first_of shared.now.table).script }
    requires count { (1 ≤ count) × (count ≤ 64) }
    ensures seat { IfOk result (λ _. HasRights shared.now.table (2 ^ 62) first.new) }
    ensures entries { IfOk result
        (λ entries. HaveSameEntries entries.items (view_of first.new).drawn) }
{
    let mut workers = workers(alloc, shared, first, &mut pass, count)?;
    let_work(
        rt,
        alloc,
        shared,
        script,
        workers.as_mut_slice(),
        count,
        gate,
    );
    rejoin(alloc, shared, first, workers)
}

/// Runs a configuration to the end by so many workers, with a queue of numbers below its size.
fn run_below<R: Threads + Wait + Sync, G: Gate + Sync, B: Bound + Send + Sync>(
    rt: &R,
    alloc: Global,
    start: Config,
    script: &Script,
    count: u32,
    gate: &G,
) -> Result<Ran, NoMemory>
    requires well_formed { IsWellFormed (configuration_of script.now start) }
    requires fresh { AreFresh start }
    requires count { (1 ≤ count) × (count ≤ 64) }
    requires bound { length start.holders.items ≡ B.bound }
    ensures run { IfOk result (λ ran. IsCompleteRun (configuration_of script.now start)
        (ran_of script.now ran)) }
    ensures logs { IfOk result HasItsLogs }
{
    let own = script.copy(alloc)?;
    let (numbers, mut pass) = RunQueue::<B>::new(alloc, start.holders.len() as u32)?;
    fill(rt, &numbers, &mut pass, &start);
    let (table, mut first) = match Table::of_config(alloc, start, script) {
        Ok(both) => both,
        Err(NoMemory) => {
            numbers.destroy();
            return Err(NoMemory);
        }
    };
    let shared = Shared { table, numbers };
    let worked = share(rt, alloc, &shared, &mut first, pass, script, count, gate);
    let Shared { table, numbers } = shared;
    numbers.destroy();
    match worked {
        Ok(entries) => close(alloc, table, first, own, entries),
        Err(NoMemory) => Err(NoMemory),
    }
}

/// Runs a configuration to the end by so many workers, each in a thread of its own where one can be
/// had. Whatever the order in which they came to take the turns, it is a complete run, and its
/// journal is the merge of the logs of all nodes.
pub fn run_workers<R: Threads + Wait + Sync, G: Gate + Sync>(
    rt: &R,
    alloc: Global,
    start: Config,
    script: &Script,
    count: u32,
    gate: &G,
) -> Result<Ran, NoMemory>
    requires well_formed { IsWellFormed (configuration_of script.now start) }
    requires fresh { AreFresh start }
    requires count { (1 ≤ count) × (count ≤ 64) }
    ensures run { IfOk result (λ ran. IsCompleteRun (configuration_of script.now start)
        (ran_of script.now ran)) }
    ensures logs { IfOk result HasItsLogs }
    ensures merge { IfOk result (λ ran. IsMergeOfLogs (configuration_of script.now start)
        (ran_of script.now ran)) }
{
    run_below::<R, G, Brand>(rt, alloc, start, script, count, gate)
}
