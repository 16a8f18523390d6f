//! Nodes that acts make.
ghost use Rattle.std.specs.Prelude.{◌≡◌, ℕ, IfOk, IsTrue};
ghost use Rattle.lio_cells.specs.State.{state_after};
ghost use Rattle.lio_calculus.specs.Afforded.{makes};
ghost use Rattle.lio_calculus.specs.Step.{blank, met_after};
ghost use Rattle.lio_task_turns.specs.StateOf.{program_of};
ghost use Rattle.lio_task.specs.Births.{CanBear};
ghost use Rattle.lio_task.specs.Configuration.{cell_of};

use lio_cells::{Node, State};
use lio_clauses::{NoMemory, beside};
use lio_labels::Label;
use lio_syntax::Script;
use lio_task::{Holder, Task};
use lio_values::Act;
use std::alloc::Global;

/// The node that an act makes where nothing is.
fn made_node(alloc: Global, act: &Act) -> Result<Node, NoMemory>
    requires { IsTrue (makes act.now) }
    ensures { IfOk result (λ node. node.state ≡ state_after (State.Absent) act.now) }
{
    let mut node = Node::of(alloc, State::Absent);
    match node.reserve_state(alloc, act) {
        Ok(()) => {
            node.renew(act);
            Ok(node)
        }
        Err(error) => {
            drop(node);
            Err(error)
        }
    }
}

/// The node that an act makes where nothing is, with the task that it gives birth to, at the
/// actor's label.
pub(crate) fn made(
    alloc: Global,
    act: &Act,
    at: &Label,
    script: &Script,
) -> Result<Holder, NoMemory>
    requires makes { IsTrue (makes act.now) }
    requires bears { CanBear script.now at.now act.now }
    ensures { IfOk result (λ holder. (longest : ℕ) → cell_of script.now holder
        ≡ met_after (program_of script.now longest) at.now act.now blank) }
{
    let node = made_node(alloc, act)?;
    let (node, task) = beside(node, Task::born_by(alloc, act, at, script))?;
    Ok(Holder { node, task })
}
