//! Tasks.
ghost use Rattle.std.specs.Prelude.{◌≡◌, ◌+◌, ◌<◌, ◌^◌, IsTrue, List};
ghost use Rattle.lio_labels.specs.Flow.{flows};

use lio_labels::Label;
use lio_syntax::Script;
use lio_task_control::{Continuation, Environment, Stood};
use lio_task_turns::Standing;

/// A task: where it stands in its script, its current label and its clearance, the turns that it
/// has left, and the numbers that it owns. Source: the tasks of LIO, ICFP 2012.
#[derive(Drop)]
pub struct Task {
    pub(crate) continuation: Continuation,
    pub(crate) label: Label,
    pub(crate) clearance: Label,
    pub(crate) turns: u32,
    pub(crate) first: u32,
    pub(crate) cells: u32,
    pub(crate) ended: bool,
    /// The line at which its parent stood when it was born, where it is a child.
    pub(crate) born: Option<usize>,
    ghost range: { first + cells < 2 ^ 31 },
    ghost cleared: { IsTrue (flows label clearance) },
}

impl Task {
    ghost use Rattle.lio_task_turns.specs.StateOf as plan;
    ghost use Rattle.lio_syntax_lines.specs.declared.line.Line.{Line};
    ghost use Rattle.lio_task.specs.StateOf.{state_of};

    /// Where it stands.
    pub(crate) fn standing(&self) -> Standing<'_>
        ensures { (lines : List Line) → plan.state_of lines result ≡ state_of lines self.now }
    {
        Standing {
            continuation: &self.continuation,
            label: &self.label,
            clearance: &self.clearance,
            turns: self.turns,
            first: self.first,
            cells: self.cells,
            ended: self.ended,
        }
    }

    /// What its names are bound to.
    pub fn environment(&self) -> &Environment
        ensures { (lines : List Line) → result.now ≡ (state_of lines self.now).environment }
    {
        self.continuation.environment()
    }

    /// The line of the script at which it stands, from 0. It is for messages: no clause says which.
    pub fn line(&self, script: &Script) -> usize {
        self.continuation.line(script)
    }

    /// Where it stood when it threw a fault that nothing caught, if it did. It is for messages: no
    /// clause says where.
    pub fn stood(&self) -> Option<&Stood> {
        self.continuation.stood()
    }

    /// The line of the script at which its parent stood when it was born, from 0, where it is a
    /// child. It is for messages: no clause says which.
    pub fn born(&self) -> Option<usize> {
        self.born
    }

    /// Its current label.
    pub fn label(&self) -> &Label
        ensures { (lines : List Line) → result.now ≡ (state_of lines self.now).label }
    {
        &self.label
    }

    /// Its clearance.
    pub fn clearance(&self) -> &Label
        ensures { (lines : List Line) → result.now ≡ (state_of lines self.now).clearance }
    {
        &self.clearance
    }

    /// The turns that it has left.
    pub fn turns_left(&self) -> u32
        ensures { (lines : List Line) → result ≡ (state_of lines self.now).turns }
    {
        self.turns
    }

    /// The numbers that it owns: the first, and how many.
    pub fn range(&self) -> (u32, u32)
        ensures first { (lines : List Line) → result.0 ≡ (state_of lines self.now).first }
        ensures cells { (lines : List Line) → result.1 ≡ (state_of lines self.now).cells }
    {
        (self.first, self.cells)
    }

    /// Whether it has ended.
    pub fn has_ended(&self) -> bool
        ensures { (lines : List Line) → result ≡ (state_of lines self.now).ended }
    {
        self.ended
    }
}
