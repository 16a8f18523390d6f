//! What an observer sees of a task.
use crate::task::Task;
use lio_clauses::NoMemory;
use lio_labels::Label;
use std::alloc::Global;

impl Task {
    ghost use Rattle.std.specs.Prelude.{◌≡◌, IfOk, List};
    ghost use Rattle.lio_syntax.specs.Statements.{Procedure};
    ghost use Rattle.lio_calculus.specs.Hiding.{hide_task};
    ghost use Rattle.lio_task.specs.StateOf.{state_in};

    /// The task as an observer at the label `observer` sees it: each value in it is erased. Source:
    /// the erasure of the concurrent calculus of LIO, ICFP 2012.
    pub fn erase(&self, alloc: Global, observer: &Label) -> Result<Task, NoMemory>
        ensures { IfOk result (λ task. (script : List Procedure)
            → state_in script task ≡ hide_task observer.now (state_in script self.now)) }
    {
        let continuation = self.continuation.erase(alloc, observer)?;
        self.moved(alloc, continuation)
    }
}
