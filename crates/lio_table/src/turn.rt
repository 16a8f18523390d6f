//! Turns of tasks.
ghost use Rattle.std.specs.Prelude.{◌≡◌, ◌<◌, [], IfErr, IfOk};
ghost use Rattle.lio_task.specs.Takes.{PlansFull, PlansOwn, PlansVisit};
ghost use Rattle.lio_table.specs.declared.view.View.{View};
ghost use Rattle.lio_table.specs.Tables.{IsSeatOf, first_of, view_of};
ghost use Rattle.lio_table.specs.Turns.{TurnRefused, TurnSays, drawn_after};
ghost use Rattle.lio_table.specs.Taken.{EndsTurn, HasOne, HasTwo, IsInTurn, RefusesTurn};
ghost use Rattle.lio_table.specs.Taken.{tickets_of, woken_or};

use crate::seat::{LioSeat, NodeSeat};
use crate::table::Table;
use lio_cells::Waiters;
use lio_clauses::NoMemory;
use lio_syntax::Script;
use lio_task::{Holder, Way, blank_entry, born_in};
use lio_task_plan::{Full, Plan};
use lio_task_turns::{Onward, Turn};
use lio_values::{Act, Entry, Held, Reply};
use std::alloc::Global;

/// What a turn came to.
#[derive(Drop)]
pub enum TurnEnd {
    /// The task took its turn, which has this ticket. The turn may have given birth to the task
    /// with a number; who waited at the node that it changed is woken.
    Moved(u64, Option<u32>, Waiters),
    /// Another seat held the node with this number, the task's own or the one that its turn meets.
    Busy(u32),
    /// The node that the turn of the task with this number meets isn't ready for it. The task waits
    /// at it, unless it is the task's own.
    Still(u32),
    /// The task with this number has ended, or there is none.
    Over(u32),
}

/// How many tickets a turn drew, by its answer.
fn tickets(end: &TurnEnd) -> u64
    ensures { result ≡ tickets_of end.now }
{
    match end {
        TurnEnd::Moved(_, _, _) => 1,
        TurnEnd::Busy(_) | TurnEnd::Still(_) | TurnEnd::Over(_) => 0,
    }
}

/// Those who are woken, if some are.
fn woken_of(alloc: Global, woken: Option<Waiters>) -> Waiters
    ensures { result ≡ woken_or woken }
{
    match woken {
        Some(waiters) => waiters,
        None => Waiters::new(alloc),
    }
}

impl Table {
    /// Lets a task take its turn. It claims the task's node, and the node that the turn meets, if
    /// it meets one, and gives them back. Once the turn has its ticket it takes no memory. It
    /// doesn't wait: a node that another seat holds is answered with Busy.
    pub fn turn(
        &self,
        alloc: Global,
        seat: &mut LioSeat,
        script: &Script,
        k: u32,
    ) -> Result<TurnEnd, NoMemory>
        requires seat { IsSeatOf self.now seat.old }
        requires bare { (view_of seat.old).claimed ≡ [] }
        requires left { 0 < (view_of seat.old).left }
        requires script { script.now ≡ (first_of self.now).script }
        requires node { k < self.now.len }
        ensures seat { IsSeatOf self.now seat.new }
        ensures bare { (view_of seat.new).claimed ≡ [] }
        ensures ok { IfOk result (λ end. TurnSays k (view_of seat.old) end (view_of seat.new)) }
        ensures err { IfErr result (λ _. TurnRefused k (view_of seat.old) (view_of seat.new)) }
    {
        let mut entry = blank_entry(alloc)?;
        let end = self.turn_into(alloc, seat, script, k, &mut entry);
        drop(entry);
        end
    }

    /// Lets a task take its turn, as `turn` does, and puts the turn's entry into `entry`, with its
    /// ticket. Where the turn isn't taken, what comes to stand there says nothing.
    pub fn turn_into(
        &self,
        alloc: Global,
        seat: &mut LioSeat,
        script: &Script,
        k: u32,
        entry: &mut Entry,
    ) -> Result<TurnEnd, NoMemory>
        requires seat { IsSeatOf self.now seat.old }
        requires bare { (view_of seat.old).claimed ≡ [] }
        requires left { 0 < (view_of seat.old).left }
        requires script { script.now ≡ (first_of self.now).script }
        requires node { k < self.now.len }
        ensures seat { IsSeatOf self.now seat.new }
        ensures bare { (view_of seat.new).claimed ≡ [] }
        ensures ok { IfOk result (λ end. TurnSays k (view_of seat.old) end (view_of seat.new)) }
        ensures entry { IfOk result (λ end. (view_of seat.new).drawn
            ≡ drawn_after end entry.new (view_of seat.old).drawn) }
        ensures err { IfErr result (λ _. TurnRefused k (view_of seat.old) (view_of seat.new)) }
    {
        let LioSeat {
            seat,
            left,
            last: _,
            other: _,
        } = seat;
        match self.start(alloc, seat, script, k, entry) {
            Ok(end) => {
                *left -= tickets(&end);
                Ok(end)
            }
            Err(NoMemory) => Err(NoMemory),
        }
    }

    /// Claims the node of a task, and lets the task take its turn.
    fn start(
        &self,
        alloc: Global,
        seat: &mut NodeSeat,
        script: &Script,
        k: u32,
        entry: &mut Entry,
    ) -> Result<TurnEnd, NoMemory>
        requires table { seat.old.table_id ≡ self.now.nodes.shared.table_id }
        requires turn { IsInTurn self.now script.now k seat.old.me }
        requires bare { seat.old.me.0.claimed ≡ [] }
        requires slots { seat.old.me.1 ≡ [] }
        ensures table { seat.new.table_id ≡ seat.old.table_id }
        ensures ok { IfOk result (λ end. EndsTurn k seat.old.me.0 end entry.new seat.new.me) }
        ensures err { IfErr result (λ _. RefusesTurn k seat.old.me.0 seat.new.me) }
    {
        match self.take(seat, k) {
            Some(holder) => self.go_on(alloc, seat, script, k, holder, entry),
            None => Ok(TurnEnd::Busy(k)),
        }
    }

    /// Lets a task whose node was taken take its turn.
    fn go_on(
        &self,
        alloc: Global,
        seat: &mut NodeSeat,
        script: &Script,
        k: u32,
        holder: Held<Holder>,
        entry: &mut Entry,
    ) -> Result<TurnEnd, NoMemory>
        requires table { seat.old.table_id ≡ self.now.nodes.shared.table_id }
        requires turn { IsInTurn self.now script.now k seat.old.me }
        requires has { (before : View) × HasOne before k holder seat.old.me }
        ensures table { seat.new.table_id ≡ seat.old.table_id }
        ensures ok { (before : View) → HasOne before k holder seat.old.me
            → IfOk result (λ end. EndsTurn k before end entry.new seat.new.me) }
        ensures err { (before : View) → HasOne before k holder seat.old.me
            → IfErr result (λ _. RefusesTurn k before seat.new.me) }
    {
        let Some(task) = &holder.get().task else {
            self.put(seat, k, holder);
            return Ok(TurnEnd::Over(k));
        };
        match task.plan(script) {
            Plan::Over => {
                self.put(seat, k, holder);
                Ok(TurnEnd::Over(k))
            }
            Plan::Short(short) => {
                let way = Way::Short(short);
                self.own(
                    alloc,
                    seat,
                    script,
                    k,
                    holder,
                    Act::Step,
                    Reply::Done,
                    way,
                    entry,
                )
            }
            Plan::Ends(ending) => match task.last_act(alloc, script, ending) {
                Ok(act) => {
                    self.own(
                        alloc,
                        seat,
                        script,
                        k,
                        holder,
                        act,
                        Reply::Done,
                        Way::End,
                        entry,
                    )
                }
                Err(NoMemory) => {
                    self.put(seat, k, holder);
                    Err(NoMemory)
                }
            },
            Plan::Full(full) => self.full(alloc, seat, script, k, holder, full, entry),
        }
    }

    /// Lets a task whose node was taken take a turn that meets no other node.
    fn own(
        &self,
        alloc: Global,
        seat: &mut NodeSeat,
        script: &Script,
        k: u32,
        holder: Held<Holder>,
        act: Act,
        reply: Reply,
        way: Way,
        entry: &mut Entry,
    ) -> Result<TurnEnd, NoMemory>
        requires table { seat.old.table_id ≡ self.now.nodes.shared.table_id }
        requires turn { IsInTurn self.now script.now k seat.old.me }
        requires has { (before : View) × HasOne before k holder seat.old.me }
        requires plans { PlansOwn script.now self.now.longest holder.task act reply way }
        ensures table { seat.new.table_id ≡ seat.old.table_id }
        ensures ok { (before : View) → HasOne before k holder seat.old.me
            → IfOk result (λ end. EndsTurn k before end entry.new seat.new.me) }
        ensures err { (before : View) → HasOne before k holder seat.old.me
            → IfErr result (λ _. RefusesTurn k before seat.new.me) }
    {
        let moved = self.move_alone(alloc, seat, script, k, holder, act, reply, way, entry);
        match moved {
            Ok((ticket, woken)) => { Ok(TurnEnd::Moved(ticket, None, woken_of(alloc, woken))) }
            Err(NoMemory) => Err(NoMemory),
        }
    }

    /// Lets a task whose node was taken take a turn that is planned in full.
    fn full(
        &self,
        alloc: Global,
        seat: &mut NodeSeat,
        script: &Script,
        k: u32,
        holder: Held<Holder>,
        full: Full,
        entry: &mut Entry,
    ) -> Result<TurnEnd, NoMemory>
        requires table { seat.old.table_id ≡ self.now.nodes.shared.table_id }
        requires turn { IsInTurn self.now script.now k seat.old.me }
        requires has { (before : View) × HasOne before k holder seat.old.me }
        requires plans { PlansFull script.now self.now.longest holder.task full }
        ensures table { seat.new.table_id ≡ seat.old.table_id }
        ensures ok { (before : View) → HasOne before k holder seat.old.me
            → IfOk result (λ end. EndsTurn k before end entry.new seat.new.me) }
        ensures err { (before : View) → HasOne before k holder seat.old.me
            → IfErr result (λ _. RefusesTurn k before seat.new.me) }
    {
        let Some(task) = &holder.get().task else {
            unreachable!()
        };
        match task.planned(alloc, script, self.longest, full) {
            Err(NoMemory) => {
                self.put(seat, k, holder);
                Err(NoMemory)
            }
            Ok(Turn::Step(onward)) => {
                let way = Way::On(onward);
                self.own(
                    alloc,
                    seat,
                    script,
                    k,
                    holder,
                    Act::Step,
                    Reply::Done,
                    way,
                    entry,
                )
            }
            Ok(Turn::Own(act, reply, onward)) => {
                let way = Way::On(onward);
                self.own(alloc, seat, script, k, holder, act, reply, way, entry)
            }
            Ok(Turn::Visit(act, target, onward)) => {
                let n = target.number();
                drop(target);
                self.visit(alloc, seat, script, k, holder, n, act, onward, entry)
            }
        }
    }

    /// Lets a task whose node was taken take a turn that meets a node.
    fn visit(
        &self,
        alloc: Global,
        seat: &mut NodeSeat,
        script: &Script,
        k: u32,
        holder: Held<Holder>,
        n: u32,
        act: Act,
        onward: Onward,
        entry: &mut Entry,
    ) -> Result<TurnEnd, NoMemory>
        requires table { seat.old.table_id ≡ self.now.nodes.shared.table_id }
        requires turn { IsInTurn self.now script.now k seat.old.me }
        requires has { (before : View) × HasOne before k holder seat.old.me }
        requires plans { PlansVisit script.now self.now.longest holder.task act n onward }
        ensures table { seat.new.table_id ≡ seat.old.table_id }
        ensures ok { (before : View) → HasOne before k holder seat.old.me
            → IfOk result (λ end. EndsTurn k before end entry.new seat.new.me) }
        ensures err { (before : View) → HasOne before k holder seat.old.me
            → IfErr result (λ _. RefusesTurn k before seat.new.me) }
    {
        if n == k {
            drop(act);
            drop(onward);
            self.put(seat, k, holder);
            return Ok(TurnEnd::Still(k));
        }
        match self.take(seat, n) {
            Some(met) => { self.meet(alloc, seat, script, k, holder, n, met, act, onward, entry) }
            None => {
                drop(act);
                drop(onward);
                self.put(seat, k, holder);
                Ok(TurnEnd::Busy(n))
            }
        }
    }

    /// Lets a task take a turn that meets another node, where both nodes were taken.
    fn meet(
        &self,
        alloc: Global,
        seat: &mut NodeSeat,
        script: &Script,
        k: u32,
        holder: Held<Holder>,
        n: u32,
        met: Held<Holder>,
        act: Act,
        onward: Onward,
        entry: &mut Entry,
    ) -> Result<TurnEnd, NoMemory>
        requires table { seat.old.table_id ≡ self.now.nodes.shared.table_id }
        requires turn { IsInTurn self.now script.now k seat.old.me }
        requires target { n < self.now.len }
        requires has { (before : View) × HasTwo before k n holder met seat.old.me }
        requires plans { PlansVisit script.now self.now.longest holder.task act n onward }
        ensures table { seat.new.table_id ≡ seat.old.table_id }
        ensures ok { (before : View) → HasTwo before k n holder met seat.old.me
            → IfOk result (λ end. EndsTurn k before end entry.new seat.new.me) }
        ensures err { (before : View) → HasTwo before k n holder met seat.old.me
            → IfErr result (λ _. RefusesTurn k before seat.new.me) }
    {
        if !met.get().node.ready(&act) {
            drop(onward);
            let left = self.leave(seat, k, n, holder, met, &act);
            drop(act);
            return match left {
                Ok(()) => Ok(TurnEnd::Still(k)),
                Err(NoMemory) => Err(NoMemory),
            };
        }
        let moved = self.move_meeting(alloc, seat, script, k, holder, n, met, act, onward, entry);
        match moved {
            Ok((ticket, woken, met_woken)) => {
                drop(woken);
                let born = born_in(entry);
                Ok(TurnEnd::Moved(ticket, born, woken_of(alloc, met_woken)))
            }
            Err(NoMemory) => Err(NoMemory),
        }
    }
}
