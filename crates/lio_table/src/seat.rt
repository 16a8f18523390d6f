//! Seats at a table.
ghost use Rattle.std.specs.Prelude.{◌≡◌, ◌<◌};
ghost use Rattle.lio_table.specs.Views.{rights};
ghost use Rattle.lio_table.specs.Seats.{HaveNumbers};

use crate::origin::Slot;
use crate::view::View;
use atomic_table::Seat;

/// A seat as the atomic steps take it.
pub(crate) type NodeSeat = Seat<Slot, View>;

/// A right to claim nodes of a table and to draw some of its tickets. It knows the entries of the
/// turns for which it has drawn tickets. It holds two nodes at most.
#[derive(Drop)]
pub struct LioSeat {
    pub(crate) seat: NodeSeat,
    pub(crate) left: u64,
    /// The number of the node that it claimed last.
    pub(crate) last: u32,
    /// The number of the node that it claimed before.
    pub(crate) other: u32,
    ghost counted: { left ≡ seat.me.0.left },
    ghost used: { 0 < rights seat.me.0 },
    ghost numbers: { HaveNumbers last other seat.me.0.claimed },
}

impl LioSeat {
    ghost use Rattle.std.specs.Prelude.{◌≡◌};
    ghost use Rattle.lio_table.specs.Tables.{view_of};

    /// How many tickets it has left.
    pub fn tickets_left(&self) -> u64
        ensures { result ≡ (view_of self.now).left }
    {
        self.left
    }
}
