//! Where a task stands.
ghost use Rattle.std.specs.Prelude.{◌+◌, ◌<◌, ◌^◌, IsTrue};
ghost use Rattle.lio_labels.specs.Flow.{flows};

use lio_labels::Label;
use lio_task_control::{Continuation, Environment};

/// Where a task stands: what the plan of its next turn goes by.
#[derive(Drop)]
pub struct Standing<'t> {
    /// What its names are bound to, and what it still has to do.
    pub continuation: &'t Continuation,
    /// Its current label.
    pub label: &'t Label,
    /// Its clearance.
    pub clearance: &'t Label,
    /// The turns that it has left.
    pub turns: u32,
    /// The first number that it owns.
    pub first: u32,
    /// How many numbers it owns.
    pub cells: u32,
    /// Whether it has ended.
    pub ended: bool,
    ghost range: { first + cells < 2 ^ 31 },
    ghost cleared: { IsTrue (flows label.now clearance.now) },
}

impl<'t> Standing<'t> {
    ghost use Rattle.std.specs.Prelude.{◌≡◌, List};
    ghost use Rattle.lio_syntax_lines.specs.declared.line.Line.{Line};
    ghost use Rattle.lio_syntax.specs.Items.{open_calls};
    ghost use Rattle.lio_task_turns.specs.StateOf.{state_of};

    /// What its names are bound to.
    pub fn environment(&self) -> &'t Environment
        ensures { (lines : List Line) → result.now ≡ (state_of lines self.now).environment }
    {
        self.continuation.environment()
    }

    /// How many calls are open.
    pub fn open_calls(&self) -> usize
        ensures { (lines : List Line) → result ≡ open_calls (state_of lines self.now).items }
    {
        self.continuation.open_calls()
    }
}
