//! The atomic steps of a seat, and what each tells.
ghost use Rattle.std.specs.Prelude.{ℕ};
ghost use Rattle.lio_values.specs.declared.entry.Entry.{Entry};
ghost use Rattle.lio_table.specs.Steps.{Claims, Draws, Gives, Looks, blank_entry};
ghost use Rattle.lio_table.specs.Cuts.{cut_left, cut_right, joined, spent};

use crate::origin::Slot;
use crate::view::View;
use atomic_table::{Join, Play, Split};
use std::marker::{Brand, PhantomData};

/// A `compare_exchange` of 0 by 1 on a node's word: the node is claimed where it is at home.
pub struct Claiming;

impl Play<Slot, View> for Claiming {
    ghost then = { Claims };
}

/// An entry without its ticket.
pub trait Recorded {
    ghost entry: { Entry };
}

impl Recorded for Brand {
    ghost entry = { blank_entry };
}

/// A `fetch_add` of 1 on word 0: a ticket is drawn for the turn that an entry shows.
pub struct Drawing<R: Recorded> {
    of: PhantomData<R>,
}

impl<R: Recorded> Play<Slot, View> for Drawing<R> {
    ghost then = { Draws R.entry };
}

/// A store of 0 on a node's word: the node that was taken out last goes home.
pub struct Giving;

impl Play<Slot, View> for Giving {
    ghost then = { Gives };
}

/// A load of word 0.
pub struct Looking;

impl Play<Slot, View> for Looking {
    ghost then = { Looks };
}

/// How many tickets a new seat is given.
pub trait Share {
    ghost tickets: { ℕ };
}

impl Share for Brand {
    ghost tickets = { 1 };
}

/// The cut of a seat in two.
pub struct Cutting<K: Share> {
    of: PhantomData<K>,
}

impl<K: Share> Split<View> for Cutting<K> {
    ghost left = { cut_left K.tickets };

    ghost right = { cut_right K.tickets };
}

/// Two seats made one.
pub struct Joining;

impl Join<View> for Joining {
    ghost both = { joined };

    ghost spent = { spent };
}
