//! What each worker does.
ghost use Rattle.std.specs.Prelude.{◌≡◌, ◌+◌, ◌<◌, ◌≤◌, [], false, IfOk, IsTrue, if◌then◌else◌};
ghost use Rattle.lio_runq.specs.Passes.{IsPassOf, left_of, popped_of, pushed_of};
ghost use Rattle.lio_table.specs.Tables.{first_of, view_of};
ghost use Rattle.lio_table.specs.Turns.{TurnSays};
ghost use Rattle.lio_workers.specs.Ends.{has_to_end};
ghost use Rattle.lio_workers.specs.Looks.{IsLastOf, MayCome};
ghost use Rattle.lio_workers.specs.Seated.{IsWorkerAt};

use crate::gate::Gate;
use crate::shared::Shared;
use lio_cells::Waiters;
use lio_clauses::NoMemory;
use lio_runq::{Bound, RunPass, RunQueue};
use lio_syntax::Script;
use lio_table::{LioSeat, TurnEnd};
use lio_task::blank_entry;
use lio_values::Entry;
use std::alloc::Global;
use std::sync::Wait;
use std::thread;

/// How often in a row a worker looks for a number in vain before it ends.
const MOST_IN_VAIN: u32 = 1_000;

/// How many turns of one task a worker takes before it puts the task's number back. Others find
/// numbers in the queue meanwhile, as it never takes two at once.
const TURNS_AT_A_LOOK: u32 = 16;

/// A worker: its seat at the table, its pass of the queue, the entries of the turns that it took,
/// how often in a row it has looked for a number in vain, and whether memory was refused.
#[derive(Drop)]
pub(crate) struct Worker<B: Bound> {
    pub seat: LioSeat,
    pub pass: RunPass<B>,
    entries: Vec<Entry>,
    looks: u32,
    refused: bool,
}

/// What came of a try.
#[derive(Clone, Copy)]
enum Tried {
    /// A turn was taken.
    Moved,
    /// Another worker held a node that the turn needs.
    Busy,
    /// The task waits at a node, or is over: it needn't be tried before it is woken.
    Rests,
    /// There is no memory for it.
    NoMemory,
}

impl<B: Bound> Worker<B> {
    /// One that has done nothing yet.
    pub fn new(alloc: Global, seat: LioSeat, pass: RunPass<B>) -> Worker<B>
        ensures seat { result.seat ≡ seat }
        ensures pass { result.pass ≡ pass }
        ensures entries { result.entries.items ≡ [] }
        ensures looks { result.looks ≡ 0 }
        ensures refused { result.refused ≡ false }
    {
        Worker {
            seat,
            pass,
            entries: Vec::new(alloc),
            looks: 0,
            refused: false,
        }
    }

    /// Its seat, and the entries of the turns that it took.
    pub fn into_parts(self) -> (LioSeat, Vec<Entry>)
        ensures { result ≡ (self.seat, self.entries) }
    {
        let Worker {
            seat,
            pass,
            entries,
            looks: _,
            refused: _,
        } = self;
        drop(pass);
        (seat, entries)
    }

    /// Whether it was refused memory, has looked in vain too often, or has one ticket left.
    fn has_to_end(&self) -> bool
        ensures { result ≡ has_to_end self.now }
    {
        self.refused || self.looks >= MOST_IN_VAIN || self.seat.tickets_left() <= 1
    }

    /// It looked for a number once more, in vain or not.
    fn has_looked(&mut self, found: bool)
        requires { self.old.looks < 1000 }
        ensures { self.new ≡ record self.old { looks = if found then 0 else self.old.looks + 1 } }
    {
        self.looks = if found { 0 } else { self.looks + 1 };
    }
}

/// Puts a number last in the queue. One for which there is no memory, or no push left, is left for
/// the end.
pub(crate) fn push<R: Wait, B: Bound>(rt: &R, numbers: &RunQueue<B>, pass: &mut RunPass<B>, k: u32)
    requires pass { IsPassOf numbers.now.numbers pass.old.seat }
    requires below { k < B.bound }
    ensures pass { IsPassOf numbers.now.numbers pass.new.seat }
    ensures left { left_of pass.old.seat ≤ left_of pass.new.seat + 1 }
    ensures pushed { MayCome k (pushed_of pass.old.seat) (pushed_of pass.new.seat) }
    ensures popped { popped_of pass.new.seat ≡ popped_of pass.old.seat }
{
    if pass.pushes_left() > 0 {
        let _ = numbers.push(rt, pass, k);
    }
}

/// Puts the numbers of those who are woken last in the queue.
fn push_woken<R: Wait, B: Bound>(
    rt: &R,
    shared: &Shared<B>,
    worker: &mut Worker<B>,
    woken: &Waiters,
)
    requires worker { IsWorkerAt shared.now worker.old }
    ensures worker { IsWorkerAt shared.now worker.new }
    ensures popped { popped_of worker.new.pass.seat ≡ popped_of worker.old.pass.seat }
{
    let len = shared.table.len();
    for waiter in woken.as_slice() {
        if waiter.task < len {
            push(rt, &shared.numbers, &mut worker.pass, waiter.task);
        }
    }
}

/// Lets the task whose number was popped last take its turn, and keeps the turn's entry. There is
/// room for it before.
fn turn<B: Bound>(
    alloc: Global,
    shared: &Shared<B>,
    script: &Script,
    worker: &mut Worker<B>,
    k: u32,
) -> Result<TurnEnd, NoMemory>
    requires worker { IsWorkerAt shared.now worker.old }
    requires left { 0 < (view_of worker.old.seat).left }
    requires script { script.now ≡ (first_of shared.now.table).script }
    requires node { k < shared.now.table.len }
    requires popped { IsLastOf k (popped_of worker.old.pass.seat) }
    ensures worker { IsWorkerAt shared.now worker.new }
    ensures pass { worker.new.pass ≡ worker.old.pass }
    ensures ok { IfOk result (λ end. TurnSays k (view_of worker.old.seat) end
        (view_of worker.new.seat)) }
{
    worker.entries.try_reserve(1)?;
    let mut entry = blank_entry(alloc)?;
    match shared
        .table
        .turn_into(alloc, &mut worker.seat, script, k, &mut entry)
    {
        Ok(TurnEnd::Moved(ticket, born, woken)) => {
            worker.entries.push_reserved(entry);
            Ok(TurnEnd::Moved(ticket, born, woken))
        }
        other => {
            drop(entry);
            other
        }
    }
}

/// Tries to take the turn of a task. It tells the gate of a turn that was taken, then puts the
/// child and those who are woken last in the queue.
fn try_turn<R: Wait, G: Gate, B: Bound>(
    rt: &R,
    alloc: Global,
    shared: &Shared<B>,
    script: &Script,
    gate: &G,
    worker: &mut Worker<B>,
    k: u32,
) -> Tried
    requires worker { IsWorkerAt shared.now worker.old }
    requires left { 0 < (view_of worker.old.seat).left }
    requires script { script.now ≡ (first_of shared.now.table).script }
    requires node { k < shared.now.table.len }
    requires popped { IsLastOf k (popped_of worker.old.pass.seat) }
    ensures worker { IsWorkerAt shared.now worker.new }
    ensures popped { popped_of worker.new.pass.seat ≡ popped_of worker.old.pass.seat }
{
    match turn(alloc, shared, script, worker, k) {
        Ok(TurnEnd::Moved(ticket, born, woken)) => {
            gate.pass(k, ticket);
            if let Some(child) = born {
                push(rt, &shared.numbers, &mut worker.pass, child);
            }
            push_woken(rt, shared, worker, &woken);
            drop(woken);
            Tried::Moved
        }
        Ok(TurnEnd::Busy(_)) => Tried::Busy,
        Ok(TurnEnd::Still(_) | TurnEnd::Over(_)) => Tried::Rests,
        Err(NoMemory) => {
            worker.refused = true;
            Tried::NoMemory
        }
    }
}

/// Takes some turns of the task whose number it took out of the queue last, and puts the number
/// back where the task may go on.
fn take_turns<R: Wait, G: Gate, B: Bound>(
    rt: &R,
    alloc: Global,
    shared: &Shared<B>,
    script: &Script,
    gate: &G,
    worker: &mut Worker<B>,
    k: u32,
)
    requires worker { IsWorkerAt shared.now worker.old }
    requires script { script.now ≡ (first_of shared.now.table).script }
    requires node { k < shared.now.table.len }
    requires popped { IsLastOf k (popped_of worker.old.pass.seat) }
    ensures { IsWorkerAt shared.now worker.new }
{
    for _ in 0..TURNS_AT_A_LOOK {
        if worker.has_to_end() {
            break;
        }
        match try_turn(rt, alloc, shared, script, gate, worker, k) {
            Tried::Moved => {}
            Tried::Busy => {
                thread::yield_now();
                break;
            }
            Tried::Rests | Tried::NoMemory => return,
        }
    }
    push(rt, &shared.numbers, &mut worker.pass, k);
}

/// Takes number after number out of the queue and turns of its task, until it has to end.
pub(crate) fn work<R: Wait, G: Gate, B: Bound>(
    rt: &R,
    alloc: Global,
    shared: &Shared<B>,
    script: &Script,
    gate: &G,
    worker: &mut Worker<B>,
)
    requires worker { IsWorkerAt shared.now worker.old }
    requires script { script.now ≡ (first_of shared.now.table).script }
    ensures ends { IsTrue (has_to_end worker.new) }
    ensures worker { IsWorkerAt shared.now worker.new }
{
    for _ in rt.forever() {
        if worker.has_to_end() {
            return;
        }
        let next = shared.numbers.pop(rt, &mut worker.pass);
        worker.has_looked(next.is_some());
        match next {
            Some(k) => take_turns(rt, alloc, shared, script, gate, worker, k),
            None => thread::yield_now(),
        }
    }
    unreachable!()
}
