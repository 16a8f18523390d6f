//! Turns that meet no other node.
ghost use Rattle.std.specs.Prelude.{◌≡◌, ◌<◌, IfErr, IfOk};
ghost use Rattle.lio_task.specs.Takes.{PlansOwn};
ghost use Rattle.lio_table.specs.Holders.{CanPut, Stand};
ghost use Rattle.lio_table.specs.Moves.{MovesAlone, ReturnsNode};

use crate::seat::NodeSeat;
use crate::table::Table;
use lio_cells::Waiters;
use lio_clauses::NoMemory;
use lio_syntax::Script;
use lio_task::{Holder, Way};
use lio_values::{Act, Entry, Held, Reply};
use std::alloc::Global;

impl Table {
    /// Lets a task whose node was taken take a turn that meets no other node, and gives the node
    /// back. It gives the ticket and who waited at the node, where the turn changes it.
    pub(crate) fn move_alone(
        &self,
        alloc: Global,
        seat: &mut NodeSeat,
        script: &Script,
        k: u32,
        mut holder: Held<Holder>,
        act: Act,
        reply: Reply,
        way: Way,
        entry: &mut Entry,
    ) -> Result<(u64, Option<Waiters>), NoMemory>
        requires table { seat.old.table_id ≡ self.now.nodes.shared.table_id }
        requires script { script.now ≡ seat.old.me.0.first.script }
        requires left { 0 < seat.old.me.0.left }
        requires node { k < self.now.len }
        requires can_put { CanPut k holder seat.old.me }
        requires stand { Stand seat.old.me.0 }
        requires plans { PlansOwn script.now seat.old.me.0.first.longest holder.task act reply way }
        ensures table { seat.new.table_id ≡ seat.old.table_id }
        ensures ok { IfOk result (λ both.
            MovesAlone k holder seat.old.me both.0 entry.new both.1 seat.new.me) }
        ensures err { IfErr result (λ _. ReturnsNode k holder seat.old.me seat.new.me) }
    {
        let prepared = holder
            .get_mut()
            .prepare_alone(alloc, script, k, act, reply, way, entry);
        match prepared {
            Ok(()) => {
                let ticket = self.draw(seat, entry);
                entry.ticket = ticket;
                let woken = holder.get_mut().record(ticket);
                self.put(seat, k, holder);
                Ok((ticket, woken))
            }
            Err(NoMemory) => {
                self.put(seat, k, holder);
                Err(NoMemory)
            }
        }
    }
}
