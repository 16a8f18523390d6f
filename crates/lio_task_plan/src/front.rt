//! The plan of what comes first.
#![tactic(auto, using(crate::proofs::LeadsLemmas::leads))]

ghost use Rattle.std.specs.Prelude.{◌≡◌, List};
ghost use Rattle.lio_syntax_lines.specs.declared.line.Line.{Line};
ghost use Rattle.lio_syntax.specs.Items.{Item};
ghost use Rattle.lio_task_control.specs.Front.{AtStatement, IsChoice, IsFront, IsLoop};
ghost use Rattle.lio_calculus.specs.Plan.{Program};
ghost use Rattle.lio_task_plan.specs.Leads.{LeadsOn};
ghost use Rattle.lio_task_plan.specs.Planned.{IsPlanned, PlansFront, state_at};
ghost use Rattle.lio_task_turns.specs.StateOf.{state_of};

use crate::plan::{Control, Ending, Full, Plan, Short};
use crate::short::short_simple;
use lio_syntax_lines::Operand;
use lio_task_control::Front;
use lio_task_turns::{Standing, operands};
use lio_values::Trap;

/// What the next turn does, by what comes first.
#[inline(always)]
#[tactic(auto, unfolding(lio_calculus::specs::Plan::plan))]
pub fn plan_next<'s>(task: &Standing<'_>, front: Front<'_, 's>) -> Plan<'s>
    ensures plan { (program : Program) → IsFront (state_at program task.now).items front.entry
        → IsPlanned program (state_at program task.now) result }
    ensures leads { (lines : List Line) → IsFront (state_of lines task.now).items front.entry
        → LeadsOn (state_of lines task.now).items result }
{
    if task.ended {
        return Plan::Over;
    }
    if task.turns == 0 {
        return Plan::Ends(Ending::Exhausted);
    }
    plan_front(task, front)
}

/// What the next turn does, of a task with turns left.
#[inline(always)]
#[tactic(auto, using(crate::proofs::FrontLemmas::firsts))]
fn plan_front<'s>(task: &Standing<'_>, front: Front<'_, 's>) -> Plan<'s>
    ensures plan { (program : Program) (items : List Item) → IsFront items front.entry
        → PlansFront program task.now items result }
    ensures leads { (items : List Item) → IsFront items front.entry → LeadsOn items result }
{
    match front {
        Front::Nothing => Plan::Ends(Ending::Done),
        Front::Back => Plan::Short(Short::Control(Control::Leave)),
        Front::Mark => Plan::Short(Short::Control(Control::Pass)),
        Front::Fail(_) => Plan::Ends(Ending::Done),
        Front::Access(simple) => Plan::Full(Full::Access(simple)),
        Front::Simple(simple) => short_simple(task, simple),
        Front::Choice(condition) => plan_choice(task, condition),
        Front::Loop(condition) => plan_loop(task, condition),
        Front::Guarded => Plan::Short(Short::Control(Control::Enter)),
    }
}

/// `if A`
#[inline(always)]
fn plan_choice<'s>(task: &Standing<'_>, condition: &Operand) -> Plan<'s>
    ensures plan { (program : Program) (items : List Item)
        → IsChoice items condition.now → PlansFront program task.now items result }
    ensures leads { (items : List Item) → AtStatement items → LeadsOn items result }
{
    match operands::flag(task.environment(), condition) {
        Some(true) => Plan::Short(Short::Control(Control::Enter)),
        Some(false) => Plan::Short(Short::Control(Control::EnterOther)),
        None => Plan::Full(Full::Refused(Trap::BadType)),
    }
}

/// `while A`
#[inline(always)]
fn plan_loop<'s>(task: &Standing<'_>, condition: &Operand) -> Plan<'s>
    ensures plan { (program : Program) (items : List Item)
        → IsLoop items condition.now → PlansFront program task.now items result }
    ensures leads { (items : List Item) → AtStatement items → LeadsOn items result }
{
    match operands::flag(task.environment(), condition) {
        Some(true) => Plan::Short(Short::Control(Control::Enter)),
        Some(false) => Plan::Short(Short::Control(Control::Pass)),
        None => Plan::Full(Full::Refused(Trap::BadType)),
    }
}
