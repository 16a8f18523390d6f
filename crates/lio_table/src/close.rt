//! The end of a table.
ghost use Rattle.std.specs.Prelude.{◌≡◌, ◌^◌, [], IfErr, IfOk};
ghost use Rattle.lio_table.specs.Views.{rights};
ghost use Rattle.lio_table.specs.Tables.{IsSeatOf, first_of, view_of};
ghost use Rattle.lio_table.specs.Closing.{HasRunTo};

use crate::boxes::unboxed;
use crate::seat::LioSeat;
use crate::table::Table;
use lio_task::Config;
use std::alloc::Global;

/// No memory was left to close a table. It comes back with its seat.
#[derive(Drop)]
pub struct CloseRefused {
    /// The table.
    pub table: Table,
    /// The seat.
    pub seat: LioSeat,
}

impl Table {
    /// Ends a table by the seat into which all others were joined.
    pub fn close(self, alloc: Global, seat: LioSeat) -> Result<Config, CloseRefused>
        requires seat { IsSeatOf self seat }
        requires bare { (view_of seat).claimed ≡ [] }
        requires all { rights (view_of seat) ≡ 2 ^ 62 }
        ensures ok { IfOk result (λ config. HasRunTo (first_of self) (view_of seat) config) }
        ensures err { IfErr result (λ refused. (refused.table ≡ self) × (refused.seat ≡ seat)) }
    {
        match Vec::with_capacity(alloc, self.len as usize) {
            Ok(holders) => {
                let Table {
                    nodes,
                    len: _,
                    longest,
                } = self;
                let LioSeat {
                    seat,
                    left: _,
                    last: _,
                    other: _,
                } = seat;
                let holders = unboxed(nodes.close_with(seat), holders);
                Ok(Config { holders, longest })
            }
            Err(_) => Err(CloseRefused { table: self, seat }),
        }
    }
}
