//! The seats and passes of workers.
ghost use Rattle.std.specs.Prelude.{◌≡◌, ◌++◌, ◌<◌, ◌≤◌, ◌*◌, ◌^◌, [], IfOk, OnOk, length};
ghost use Rattle.lio_calculus.specs.Journals.{HaveSameEntries};
ghost use Rattle.lio_runq.specs.Passes.{IsPassOf, left_of};
ghost use Rattle.lio_table.specs.Tables.{view_of};
ghost use Rattle.lio_workers.specs.Seated.{AreWorkersAt, HasRights, HasTheRest};

use crate::shared::Shared;
use crate::worker::Worker;
use lio_clauses::{NoMemory, assign};
use lio_runq::{Bound, RunPass};
use lio_table::LioSeat;
use lio_values::Entry;
use std::alloc::Global;

/// How many tickets each worker is given: 2^40.
const TICKETS_OF_A_WORKER: u64 = 1 << 40;

/// How often each worker may put a number into the queue: 2^40 times.
const PUSHES_OF_A_WORKER: u64 = 1 << 40;

/// So many workers, whose seats are cut off the table's first one, and their passes off this one.
pub(crate) fn workers<B: Bound>(
    alloc: Global,
    shared: &Shared<B>,
    first: &mut LioSeat,
    pass: &mut RunPass<B>,
    count: u32,
) -> Result<Vec<Worker<B>>, NoMemory>
    requires all { HasRights shared.now.table (2 ^ 62) first.old }
    requires none_drawn { (view_of first.old).drawn ≡ [] }
    requires bound { B.bound ≡ shared.now.table.len }
    requires pass { IsPassOf shared.now.numbers.numbers pass.old.seat }
    requires pushes { 2 ^ 60 ≤ left_of pass.old.seat }
    requires count { count ≤ 64 }
    ensures workers { IfOk result (λ workers. AreWorkersAt shared.now workers.items) }
    ensures rest { IfOk result (λ workers. HasTheRest shared.now.table workers.items first.new) }
    ensures none_drawn { IfOk result (λ _. (view_of first.new).drawn ≡ []) }
{
    let mut workers = Vec::new(alloc);
    let mut made = 0;
    while made < count {
        let seat = shared.table.split(first, TICKETS_OF_A_WORKER);
        let own = shared.numbers.split_pass(pass, PUSHES_OF_A_WORKER);
        workers.push(Worker::new(alloc, seat, own))?;
        made += 1;
    }
    Ok(workers)
}

/// Puts entries last behind others.
fn gather(entries: &mut Vec<Entry>, mut own: Vec<Entry>) -> Result<(), NoMemory>
    ensures { OnOk result (entries.new.items ≡ entries.old.items ++ own.items) }
{
    if entries.is_empty() {
        assign(entries, own);
    } else {
        entries.append(&mut own)?;
    }
    Ok(())
}

/// Joins the seats of all workers into the first one, which has all tickets again, and puts the
/// entries of their turns together.
pub(crate) fn rejoin<B: Bound>(
    alloc: Global,
    shared: &Shared<B>,
    first: &mut LioSeat,
    mut workers: Vec<Worker<B>>,
) -> Result<Vec<Entry>, NoMemory>
    requires workers { AreWorkersAt shared.now workers.items }
    requires rest { HasTheRest shared.now.table workers.items first.old }
    requires none_drawn { (view_of first.old).drawn ≡ [] }
    ensures seat { IfOk result (λ _. HasRights shared.now.table (2 ^ 62) first.new) }
    ensures entries { IfOk result
        (λ entries. HaveSameEntries entries.items (view_of first.new).drawn) }
{
    let mut entries = Vec::new(alloc);
    while let Some(worker) = workers.pop() {
        let (seat, own) = worker.into_parts();
        shared.table.join(first, seat);
        gather(&mut entries, own)?;
    }
    Ok(entries)
}
