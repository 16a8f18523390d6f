//! Turns that meet another node.
ghost use Rattle.std.specs.Prelude.{◌≡◌, ◌<◌, IfErr, IfOk, IsTrue, false};
ghost use Rattle.lio_cells.specs.State.{ready};
ghost use Rattle.lio_task.specs.Takes.{PlansVisit};
ghost use Rattle.lio_table.specs.Views.{rights};
ghost use Rattle.lio_table.specs.Holders.{CanPutBoth, PutsBoth, Stand};
ghost use Rattle.lio_table.specs.Moves.{MovesBoth, ReturnsBoth};
ghost use Rattle.lio_table.specs.Waits.{LeavesBoth};

use crate::park::park;
use crate::seat::NodeSeat;
use crate::table::Table;
use lio_cells::Waiters;
use lio_clauses::NoMemory;
use lio_syntax::Script;
use lio_task::Holder;
use lio_task_turns::Onward;
use lio_values::{Act, Entry, Held};
use std::alloc::Global;

impl Table {
    /// Puts the holders of two nodes back, and gives the nodes back, the met one first.
    pub(crate) fn put_both(
        &self,
        seat: &mut NodeSeat,
        k: u32,
        n: u32,
        holder: Held<Holder>,
        met: Held<Holder>,
    )
        requires table { seat.old.table_id ≡ self.now.nodes.shared.table_id }
        requires some { 0 < rights seat.old.me.0 }
        requires actor { k < self.now.len }
        requires target { n < self.now.len }
        requires can_put { CanPutBoth k n holder met seat.old.me }
        ensures table { seat.new.table_id ≡ seat.old.table_id }
        ensures put { PutsBoth k n holder met seat.old.me seat.new.me }
    {
        self.put(seat, n, met);
        self.put(seat, k, holder);
    }

    /// Gives back two nodes that were taken, of which the met one isn't ready for the turn of a
    /// task. The task waits at it from then on. After a refusal of memory both are as they were.
    pub(crate) fn leave(
        &self,
        seat: &mut NodeSeat,
        k: u32,
        n: u32,
        holder: Held<Holder>,
        mut met: Held<Holder>,
        act: &Act,
    ) -> Result<(), NoMemory>
        requires table { seat.old.table_id ≡ self.now.nodes.shared.table_id }
        requires some { 0 < rights seat.old.me.0 }
        requires actor { k < self.now.len }
        requires target { n < self.now.len }
        requires can_put { CanPutBoth k n holder met seat.old.me }
        requires unready { ready met.node.state act.now ≡ false }
        ensures table { seat.new.table_id ≡ seat.old.table_id }
        ensures ok { IfOk result
            (λ _. LeavesBoth k n holder met act.now seat.old.me seat.new.me) }
        ensures err { IfErr result (λ _. ReturnsBoth k n holder met seat.old.me seat.new.me) }
    {
        let parked = park(met.get_mut(), k, act);
        self.put_both(seat, k, n, holder, met);
        parked
    }

    /// Lets a task take a turn that meets another node, where both nodes were taken and the met one
    /// is ready, and gives both back. It gives the ticket and who waited at the node that the turn
    /// changes.
    pub(crate) fn move_meeting(
        &self,
        alloc: Global,
        seat: &mut NodeSeat,
        script: &Script,
        k: u32,
        mut holder: Held<Holder>,
        n: u32,
        mut met: Held<Holder>,
        act: Act,
        onward: Onward,
        entry: &mut Entry,
    ) -> Result<(u64, Option<Waiters>, Option<Waiters>), NoMemory>
        requires table { seat.old.table_id ≡ self.now.nodes.shared.table_id }
        requires script { script.now ≡ seat.old.me.0.first.script }
        requires left { 0 < seat.old.me.0.left }
        requires actor { k < self.now.len }
        requires target { n < self.now.len }
        requires can_put { CanPutBoth k n holder met seat.old.me }
        requires stand { Stand seat.old.me.0 }
        requires plans { PlansVisit script.now seat.old.me.0.first.longest holder.task act n
            onward }
        requires ready { IsTrue (ready met.node.state act) }
        ensures table { seat.new.table_id ≡ seat.old.table_id }
        ensures ok { IfOk result
            (λ t. MovesBoth k n holder met seat.old.me t.0 entry.new t.1 t.2 seat.new.me) }
        ensures err { IfErr result (λ _. ReturnsBoth k n holder met seat.old.me seat.new.me) }
    {
        let actor = holder.get_mut();
        let target = met.get_mut();
        let prepared = actor.prepare_meeting(alloc, script, k, target, n, act, onward, entry);
        match prepared {
            Ok(child) => {
                let ticket = self.draw(seat, entry);
                entry.ticket = ticket;
                let woken = holder.get_mut().record(ticket);
                let met_woken = met.get_mut().record_met(ticket, child);
                self.put_both(seat, k, n, holder, met);
                Ok((ticket, woken, met_woken))
            }
            Err(NoMemory) => {
                self.put_both(seat, k, n, holder, met);
                Err(NoMemory)
            }
        }
    }
}
