//! The table.
ghost use Rattle.std.specs.Prelude.{◌≡◌, ◌+◌, length};
ghost use Rattle.lio_table.specs.Views.{beginning_of};

use crate::boxes::boxed;
use crate::origin::{Origin, Rule, Slot};
use crate::seat::LioSeat;
use crate::view::View;
use lio_clauses::NoMemory;
use lio_syntax::Script;
use lio_task::Config;
use std::alloc::Global;

/// A table as the atomic steps take it.
pub(crate) type Nodes = atomic_table::Table<Slot, View, Origin, Rule, Global>;

/// How many tickets the first seat of a table has: 2^62.
const ALL_TICKETS: u64 = 1 << 62;

/// A table of nodes that threads share.
#[derive(Drop)]
pub struct Table {
    pub(crate) nodes: Nodes,
    pub(crate) len: u32,
    pub(crate) longest: u32,
    ghost words: { nodes.shared.table_id.words ≡ len + 1 },
    ghost slots: { nodes.shared.table_id.slots ≡ len },
    ghost holders: { length (beginning_of nodes.shared.key).holders ≡ len },
    ghost texts: { (beginning_of nodes.shared.key).longest ≡ longest },
}

impl Table {
    ghost use Rattle.std.specs.Prelude.{◌≡◌, IfOk, length};
    ghost use Rattle.lio_calculus.specs.Sound.{IsSound};
    ghost use Rattle.lio_task.specs.Configuration.{configuration_of};
    ghost use Rattle.lio_task.specs.Logs.{AreFresh};
    ghost use Rattle.lio_table.specs.Views.{with_all_tickets};
    ghost use Rattle.lio_table.specs.Tables.{IsSeatOf, beginning_with, first_of, view_of};

    /// A table of a configuration's nodes, and its first seat, which has all tickets.
    pub fn of_config(
        alloc: Global,
        config: Config,
        script: &Script,
    ) -> Result<(Table, LioSeat), NoMemory>
        requires sound { IsSound (configuration_of script.now config) }
        requires fresh { AreFresh config }
        ensures first { IfOk result (λ both. first_of both.0 ≡ beginning_with script.now config) }
        ensures seat { IfOk result (λ both. IsSeatOf both.0 both.1) }
        ensures tickets { IfOk result (λ both. view_of both.1
            ≡ with_all_tickets (first_of both.0)) }
    {
        let origin = Origin::of(&config, script);
        let len = config.holders.len();
        let longest = config.longest;
        let words = vec![in alloc; 0; len + 1];
        let Ok(words) = words else {
            drop(config);
            return Err(NoMemory);
        };
        let Config {
            holders,
            longest: _,
        } = config;
        let slots = boxed(alloc, holders)?;
        match Nodes::new(alloc, words.as_slice(), slots, &origin) {
            Ok((nodes, seat)) => {
                let table = Table {
                    nodes,
                    len: len as u32,
                    longest,
                };
                let seat = LioSeat {
                    seat,
                    left: ALL_TICKETS,
                    last: 0,
                    other: 0,
                };
                Ok((table, seat))
            }
            Err(refused) => {
                drop(refused);
                Err(NoMemory)
            }
        }
    }

    /// How many nodes it has.
    pub fn len(&self) -> u32
        ensures { result ≡ length (first_of self.now).holders }
    {
        self.len
    }
}
