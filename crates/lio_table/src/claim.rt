//! Nodes that a seat claims and gives back.
ghost use Rattle.std.specs.Prelude.{◌≡◌, ◌≢◌, ◌<◌, length};
ghost use Rattle.lio_table.specs.Views.{HoldsNode};
ghost use Rattle.lio_table.specs.Tables.{IsSeatOf, view_of};
ghost use Rattle.lio_table.specs.Claims.{ClaimSays, GiveSays};

use crate::seat::LioSeat;
use crate::table::Table;

/// What a claim came to.
#[derive(Debug, Clone, Copy, PartialEq, Eq)]
pub enum Claim {
    /// The seat holds the node.
    Held,
    /// Another seat held it.
    Busy,
}

impl Table {
    /// Claims a node. Busy: another seat held it.
    pub fn claim(&self, seat: &mut LioSeat, n: u32) -> Claim
        requires seat { IsSeatOf self.now seat.old }
        requires node { n < self.now.len }
        requires few { length (view_of seat.old).claimed < 2 }
        requires not_held { HoldsNode (view_of seat.old) n → ⊥ }
        ensures seat { IsSeatOf self.now seat.new }
        ensures claimed { ClaimSays result n (view_of seat.old) (view_of seat.new) }
    {
        let LioSeat {
            seat,
            left: _,
            last,
            other,
        } = seat;
        if self.claim_node(seat, n) {
            *other = *last;
            *last = n;
            Claim::Held
        } else {
            Claim::Busy
        }
    }

    /// Gives a node back.
    pub fn give(&self, seat: &mut LioSeat, n: u32)
        requires seat { IsSeatOf self.now seat.old }
        requires held { HoldsNode (view_of seat.old) n }
        ensures seat { IsSeatOf self.now seat.new }
        ensures given { GiveSays n (view_of seat.old) (view_of seat.new) }
    {
        if n == seat.last {
            self.give_last(seat, n);
        } else {
            self.give_other(seat, n);
        }
    }

    /// Gives back the node that a seat claimed last.
    fn give_last(&self, seat: &mut LioSeat, n: u32)
        requires seat { IsSeatOf self.now seat.old }
        requires held { HoldsNode (view_of seat.old) n }
        requires last { n ≡ seat.old.last }
        ensures seat { IsSeatOf self.now seat.new }
        ensures given { GiveSays n (view_of seat.old) (view_of seat.new) }
    {
        let LioSeat {
            seat,
            left: _,
            last,
            other,
        } = seat;
        self.give_node(seat, n);
        *last = *other;
    }

    /// Gives back the node that a seat claimed before.
    fn give_other(&self, seat: &mut LioSeat, n: u32)
        requires seat { IsSeatOf self.now seat.old }
        requires held { HoldsNode (view_of seat.old) n }
        requires other { n ≢ seat.old.last }
        ensures seat { IsSeatOf self.now seat.new }
        ensures given { GiveSays n (view_of seat.old) (view_of seat.new) }
    {
        let LioSeat {
            seat,
            left: _,
            last: _,
            other: _,
        } = seat;
        seat.turn();
        self.give_node(seat, n);
    }
}
