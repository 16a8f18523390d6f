//! Where a task stands, told from outside.
ghost use Rattle.std.specs.Prelude.{◌≡◌};
ghost use Rattle.std.specs.Option.{option_copied};
ghost use Rattle.lio_task.specs.Status.{reading, status_at, waiting};

use crate::task::Task;
use lio_cells::Wish;
use lio_syntax::Script;
use lio_syntax_lines::Simple;
use lio_task_control::{Environment, Front};
use lio_task_turns::operands;
use lio_values::Handle;

/// Where a task stands.
#[derive(Clone, Copy, Debug, PartialEq, Eq)]
pub enum Status {
    /// Its next turn waits for nothing.
    Running,
    /// At the access of a `take`, a `put` or a `wait`: the number of the node, and what it is to
    /// give.
    Access(u32, Wish),
    /// At the access of a `read`: the number of the reference.
    Reading(u32),
    /// It has ended.
    Ended,
}

impl Task {
    ghost use Rattle.std.specs.Prelude.{◌≡◌, List};
    ghost use Rattle.lio_syntax.specs.Lines.{script_lines};
    ghost use Rattle.lio_syntax.specs.Statements.{Procedure};
    ghost use Rattle.lio_task_control.specs.Front.{IsFront};
    ghost use Rattle.lio_task.specs.StateOf.{state_in};
    ghost use Rattle.lio_task.specs.Status.{status_of};

    /// What comes first in what it still has to do.
    pub fn front<'t, 's>(&'t self, script: &'s Script) -> Front<'t, 's>
        ensures { IsFront (state_in script.now self.now).items result }
    {
        self.continuation.front(script)
    }

    /// Where it stands, by what comes first in it. It takes no memory.
    pub fn status_by(&self, front: &Front<'_, '_>) -> Status
        ensures { (script : List Procedure)
            → IsFront (state_in script self.now).items front.now
            → result ≡ status_of (state_in script self.now) }
    {
        if self.ended {
            return Status::Ended;
        }
        match front {
            Front::Access(simple) => status_at(self.continuation.environment(), simple),
            _ => Status::Running,
        }
    }

    /// Where it stands. It takes no memory.
    pub fn status(&self, script: &Script) -> Status
        ensures { result ≡ status_of (state_in script.now self.now) }
    {
        self.status_by(&self.front(script))
    }
}

/// Where a task stands at the access of a statement.
fn status_at(environment: &Environment, simple: &Simple) -> Status
    ensures { result ≡ status_at environment.now simple.now }
{
    match simple {
        Simple::Read(_, reference) => reading(operands::reference(environment, reference)),
        Simple::Take(_, variable) => {
            waiting(operands::variable(environment, variable), Wish::Take)
        }
        Simple::Put(variable, _) => waiting(operands::variable(environment, variable), Wish::Put),
        Simple::Wait(_, task_result) => {
            waiting(operands::task_result(environment, task_result), Wish::Wait)
        }
        _ => Status::Running,
    }
}

/// At the access of a `read` of what a handle names.
fn reading(handle: Option<&Handle>) -> Status
    ensures { result ≡ reading (option_copied handle.entry) }
{
    match handle {
        Some(handle) => Status::Reading(handle.number),
        None => Status::Running,
    }
}

/// At an access that waits for what a handle names.
fn waiting(handle: Option<&Handle>, wish: Wish) -> Status
    ensures { result ≡ waiting (option_copied handle.entry) wish }
{
    match handle {
        Some(handle) => Status::Access(handle.number, wish),
        None => Status::Running,
    }
}
