//! Seats that are cut in two, and two that are made one.
ghost use Rattle.std.specs.Prelude.{◌≡◌, ◌<◌, ◌≤◌, []};
ghost use Rattle.lio_table.specs.Cuts.{cut_left, cut_right, joined};
ghost use Rattle.lio_table.specs.Tables.{IsSeatOf, view_of};

use crate::rule_steps::{Cutting, Joining, Looking, Share};
use crate::seat::LioSeat;
use crate::table::Table;
use std::marker::Brand;

impl Table {
    /// Cuts a seat in two: the new one has this many tickets left.
    pub fn split(&self, seat: &mut LioSeat, tickets: u64) -> LioSeat
        requires seat { IsSeatOf self.now seat.old }
        requires bare { (view_of seat.old).claimed ≡ [] }
        requires some { 1 ≤ tickets }
        requires left { tickets < (view_of seat.old).left }
        ensures seats { IsSeatOf self.now seat.new × IsSeatOf self.now result }
        ensures old { view_of seat.new ≡ cut_left tickets (view_of seat.old) }
        ensures new { view_of result ≡ cut_right tickets (view_of seat.old) }
    {
        self.split_share::<Brand>(seat, tickets)
    }

    /// The same, with the number of tickets as a ghost member too.
    fn split_share<K: Share>(&self, seat: &mut LioSeat, tickets: u64) -> LioSeat
        requires seat { IsSeatOf self.now seat.old }
        requires share { tickets ≡ K.tickets }
        requires bare { (view_of seat.old).claimed ≡ [] }
        requires some { 1 ≤ tickets }
        requires left { tickets < (view_of seat.old).left }
        ensures seats { IsSeatOf self.now seat.new × IsSeatOf self.now result }
        ensures old { view_of seat.new ≡ cut_left tickets (view_of seat.old) }
        ensures new { view_of result ≡ cut_right tickets (view_of seat.old) }
    {
        let LioSeat {
            seat,
            left,
            last: _,
            other: _,
        } = seat;
        let new = self.nodes.shared.split_seat::<Cutting<K>>(seat);
        *left -= tickets;
        LioSeat {
            seat: new,
            left: tickets,
            last: 0,
            other: 0,
        }
    }

    /// Takes in what another seat has drawn and has left.
    pub fn join(&self, seat: &mut LioSeat, other: LioSeat)
        requires seats { IsSeatOf self.now seat.old × IsSeatOf self.now other }
        requires bare { (view_of seat.old).claimed ≡ [] }
        requires other_bare { (view_of other).claimed ≡ [] }
        ensures seat { IsSeatOf self.now seat.new }
        ensures joined { view_of seat.new ≡ joined (view_of seat.old) (view_of other) }
    {
        let LioSeat {
            seat,
            left,
            last: _,
            other: _,
        } = seat;
        let LioSeat {
            seat: its,
            left: more,
            last: _,
            other: _,
        } = other;
        let shared = &self.nodes.shared;
        shared.join_seat::<Joining>(seat, its);
        shared.load::<Looking>(seat, 0);
        *left += more;
    }
}
