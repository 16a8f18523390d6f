//! Equal tasks.
use crate::task::Task;
use lio_clauses::NoMemory;
use lio_task_control::Continuation;
use std::alloc::Global;

impl Task {
    ghost use Rattle.std.specs.Prelude.{◌≡◌, IfOk, List};
    ghost use Rattle.lio_syntax_lines.specs.declared.line.Line.{Line};
    ghost use Rattle.lio_syntax.specs.Statements.{Procedure};
    ghost use Rattle.lio_task_control.specs.Continuation.{place_of};
    ghost use Rattle.lio_calculus.specs.Going.{at};
    ghost use Rattle.lio_task.specs.StateOf.{state_in, state_of};

    /// A task that stands at another place, and is equal else.
    pub(crate) fn moved(&self, alloc: Global, continuation: Continuation) -> Result<Task, NoMemory>
        ensures { IfOk result (λ task. (lines : List Line)
            → state_of lines task ≡ at (state_of lines self.now) (place_of lines continuation)) }
    {
        let label = self.label.copy(alloc)?;
        let clearance = self.clearance.copy(alloc)?;
        Ok(Task {
            continuation,
            label,
            clearance,
            turns: self.turns,
            first: self.first,
            cells: self.cells,
            ended: self.ended,
            born: self.born,
        })
    }

    /// An equal task.
    pub fn copy(&self, alloc: Global) -> Result<Task, NoMemory>
        ensures { IfOk result (λ task. (script : List Procedure)
            → state_in script task ≡ state_in script self.now) }
    {
        let continuation = self.continuation.copy(alloc)?;
        self.moved(alloc, continuation)
    }
}
