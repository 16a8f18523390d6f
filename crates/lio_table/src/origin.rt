//! The rule of a table, over what the table began with.
ghost use Rattle.std.specs.Prelude.{◌≡◌};

use crate::view::View;
use atomic_table::TableRule;
use lio_syntax::Script;
use lio_task::{Config, Holder};
use lio_values::Held;
use std::snapshot::Snapshot;

/// A slot of a table: a node's holder, but while a seat has taken it out.
pub type Slot = Option<Held<Holder>>;

/// What a table is told when it is made: the configuration that it begins with, and the script.
#[derive(Drop)]
pub struct Origin {
    /// The configuration.
    pub config: Snapshot<Config>,
    /// What the tasks run.
    pub script: Snapshot<Script>,
}

impl Origin {
    /// This configuration and this script.
    pub fn of(config: &Config, script: &Script) -> Origin
        ensures config { result.config.value ≡ config.now }
        ensures script { result.script.value ≡ script.now }
    {
        Origin {
            config: Snapshot::of(config),
            script: Snapshot::of(script),
        }
    }
}

/// The rule of a table of nodes.
pub struct Rule;

impl TableRule<Slot, View, Origin> for Rule {
    ghost use Rattle.lio_table.specs.Rule.{Keeps};
    ghost use Rattle.lio_table.specs.Views.{beginning_of, with_all_tickets};

    ghost holds = { λ origin. Keeps (beginning_of origin) };

    ghost first = { λ origin. with_all_tickets (beginning_of origin) };
}
