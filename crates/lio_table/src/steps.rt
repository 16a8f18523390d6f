//! The atomic steps of a seat.
ghost use Rattle.std.specs.Prelude.{◌≡◌, ◌<◌, MatchBool, MatchOption};
ghost use Rattle.lio_table.specs.Views.{HoldsNode, rights};
ghost use Rattle.lio_table.specs.Steps.{CanGive, CanRecord, DrawsTicket, FindsTaken};
ghost use Rattle.lio_table.specs.Steps.{GivesNode, TakesNode};
ghost use Rattle.lio_table.specs.Holders.{CanPut, PutsBack, TakesOut};

use crate::origin::Slot;
use crate::rule_steps::{Claiming, Drawing, Giving, Recorded};
use crate::seat::NodeSeat;
use crate::table::Table;
use lio_task::Holder;
use lio_values::{Entry, Held};
use std::marker::Brand;

impl Table {
    /// Claims a node that a seat doesn't hold, and says whether it was at home.
    pub(crate) fn claim_node(&self, seat: &mut NodeSeat, n: u32) -> bool
        requires table { seat.old.table_id ≡ self.now.nodes.shared.table_id }
        requires some { 0 < rights seat.old.me.0 }
        requires node { n < self.now.len }
        requires not_held { HoldsNode seat.old.me.0 n → ⊥ }
        ensures table { seat.new.table_id ≡ seat.old.table_id }
        ensures claimed { MatchBool result (TakesNode n seat.old.me seat.new.me)
            (FindsTaken n seat.old.me seat.new.me) }
    {
        let shared = &self.nodes.shared;
        shared.compare_exchange::<Claiming>(seat, n as usize + 1, 0, 1) == 0
    }

    /// Gives back the node whose slot was taken out last.
    pub(crate) fn give_node(&self, seat: &mut NodeSeat, n: u32)
        requires table { seat.old.table_id ≡ self.now.nodes.shared.table_id }
        requires some { 0 < rights seat.old.me.0 }
        requires node { n < self.now.len }
        requires can_give { CanGive n seat.old.me }
        ensures table { seat.new.table_id ≡ seat.old.table_id }
        ensures given { GivesNode n seat.old.me seat.new.me }
    {
        let shared = &self.nodes.shared;
        shared.store::<Giving>(seat, n as usize + 1, 0);
    }

    /// Draws a ticket for the turn that an entry shows.
    pub(crate) fn draw(&self, seat: &mut NodeSeat, entry: &Entry) -> u64
        requires table { seat.old.table_id ≡ self.now.nodes.shared.table_id }
        requires can_record { CanRecord entry.now seat.old.me.0 }
        ensures table { seat.new.table_id ≡ seat.old.table_id }
        ensures drawn { DrawsTicket entry.now seat.old.me result seat.new.me }
    {
        self.draw_for::<Brand>(seat, entry)
    }

    /// The same, with the entry as a ghost member too.
    fn draw_for<R: Recorded>(&self, seat: &mut NodeSeat, _entry: &Entry) -> u64
        requires table { seat.old.table_id ≡ self.now.nodes.shared.table_id }
        requires entry { _entry.now ≡ R.entry }
        requires can_record { CanRecord _entry.now seat.old.me.0 }
        ensures table { seat.new.table_id ≡ seat.old.table_id }
        ensures drawn { DrawsTicket _entry.now seat.old.me result seat.new.me }
    {
        self.nodes.shared.fetch_add::<Drawing<R>>(seat, 0, 1)
    }

    /// Takes a node that a seat doesn't hold, with its holder. None: another seat holds it.
    pub(crate) fn take(&self, seat: &mut NodeSeat, n: u32) -> Slot
        requires table { seat.old.table_id ≡ self.now.nodes.shared.table_id }
        requires some { 0 < rights seat.old.me.0 }
        requires node { n < self.now.len }
        requires not_held { HoldsNode seat.old.me.0 n → ⊥ }
        ensures table { seat.new.table_id ≡ seat.old.table_id }
        ensures taken { MatchOption result (FindsTaken n seat.old.me seat.new.me)
            (λ holder. TakesOut n seat.old.me holder seat.new.me) }
    {
        if !self.claim_node(seat, n) {
            return None;
        }
        match self.nodes.shared.exchange(seat, n as usize, None) {
            Some(holder) => Some(holder),
            None => unreachable!(),
        }
    }

    /// Puts the holder of a node back, and gives the node back.
    pub(crate) fn put(&self, seat: &mut NodeSeat, n: u32, holder: Held<Holder>)
        requires table { seat.old.table_id ≡ self.now.nodes.shared.table_id }
        requires some { 0 < rights seat.old.me.0 }
        requires node { n < self.now.len }
        requires can_put { CanPut n holder seat.old.me }
        ensures table { seat.new.table_id ≡ seat.old.table_id }
        ensures put { PutsBack n holder seat.old.me seat.new.me }
    {
        match self.nodes.shared.exchange(seat, n as usize, Some(holder)) {
            None => self.give_node(seat, n),
            Some(_) => unreachable!(),
        }
    }
}
