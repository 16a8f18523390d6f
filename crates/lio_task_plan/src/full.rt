//! The turns that are planned in full, and the contents with which tasks end.
ghost use Rattle.std.specs.Prelude.{◌≡◌, IfOk, List};
ghost use Rattle.lio_syntax.specs.Lines.{script_lines};
ghost use Rattle.lio_syntax.specs.Items.{Item};
ghost use Rattle.lio_task_control.specs.Front.{IsFront};
ghost use Rattle.lio_task_plan.specs.Planned.{PlansFull, content_by, left_of};
ghost use Rattle.lio_task_turns.specs.StateOf.{program_of, state_of};

use crate::plan::{Ending, Full};
use crate::simple::plan_simple;
use lio_clauses::NoMemory;
use lio_syntax::Script;
use lio_task_control::Front;
use lio_task_turns::{Attempt, Standing};
use lio_values::{Act, Content, Fault, FaultKind, Held, Plain};
use std::alloc::Global;

/// The refused step, or the turn of a statement or of its access.
pub fn plan_full<'s>(
    alloc: Global,
    task: &Standing<'_>,
    script: &Script,
    longest: u32,
    full: Full<'s>,
) -> Attempt<'s>
    ensures { IfOk result (PlansFull (program_of script.now longest) task.now full.entry) }
{
    match full {
        Full::Refused(trap) => task.refused(alloc, Act::Step, trap.kind()),
        Full::Statement(simple) => plan_simple(alloc, task, script, longest, simple),
        Full::Access(simple) => task.plan_access(alloc, simple),
    }
}

/// The content with which a task ends.
pub fn content_of(
    alloc: Global,
    task: &Standing<'_>,
    script: &Script,
    ending: Ending,
) -> Result<Content, NoMemory>
    ensures { IfOk result (λ content. let state = state_of (script_lines script.now) task.now in
        content ≡ content_by state state.items ending) }
{
    match ending {
        Ending::Exhausted => Ok(Content::Faulted(task.fault(alloc, FaultKind::NoTurns)?)),
        Ending::Done => left_by(alloc, task.continuation.front(script)),
    }
}

/// The content with which a task ends that has nothing left to do, or whose fault nothing caught.
fn left_by(alloc: Global, front: Front<'_, '_>) -> Result<Content, NoMemory>
    ensures { IfOk result (λ content. (items : List Item) → IsFront items front.entry
        → content ≡ left_of items) }
{
    match front {
        Front::Fail(fault) => Ok(Content::Faulted(copied(alloc, fault)?)),
        Front::Nothing
        | Front::Back
        | Front::Mark
        | Front::Access(_)
        | Front::Simple(_)
        | Front::Choice(_)
        | Front::Loop(_)
        | Front::Guarded => Ok(Content::Kept(Plain::Unit)),
    }
}

/// An equal fault.
fn copied(alloc: Global, fault: &Fault) -> Result<Held<Fault>, NoMemory>
    ensures { IfOk result (λ copy. copy ≡ fault.now) }
{
    Held::new(alloc, fault.copy(alloc)?)
}
