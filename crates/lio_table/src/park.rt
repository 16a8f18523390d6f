//! Tasks that wait at a node.
#![tactic(auto, unfolding(lio_cells::specs::State::ready))]

ghost use Rattle.std.specs.Prelude.{◌≡◌, false, OnOk, OnErr};
ghost use Rattle.lio_cells.specs.State.{ready};
ghost use Rattle.lio_table.specs.Waits.{waited_at};

use lio_cells::{Node, Waiter, Wish};
use lio_clauses::NoMemory;
use lio_task::Holder;
use lio_values::Act;

/// Lets a task wait at a node that isn't ready for what its turn asks. After a refusal all is as
/// before.
pub(crate) fn park(met: &mut Holder, k: u32, act: &Act) -> Result<(), NoMemory>
    requires unready { ready met.old.node.state act.now ≡ false }
    ensures ok { OnOk result (met.new ≡ waited_at met.old k act.now) }
    ensures err { OnErr result (met.new ≡ met.old) }
{
    match act {
        Act::Take => met.node.park(Waiter {
            task: k,
            wish: Wish::Take,
        }),
        Act::Put(_) => met.node.park(Waiter {
            task: k,
            wish: Wish::Put,
        }),
        Act::Wait => met.node.park(Waiter {
            task: k,
            wish: Wish::Wait,
        }),
        _ => Ok(()),
    }
}
