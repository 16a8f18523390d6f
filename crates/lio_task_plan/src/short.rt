//! The plan of a statement that opens no block, told without memory where that can be.
#![tactic(auto, unfolding(lio_calculus::specs::Plan::plan_simple))]

ghost use Rattle.std.specs.Prelude.{◌≡◌};
ghost use Rattle.lio_syntax_lines.specs.declared.line.Simple.TheVariants as line;
ghost use Rattle.lio_task_plan.specs.Leads.{LeadsFrom};
ghost use Rattle.lio_task_plan.specs.Planned.{PlansOutcome, PlansSimple};

use crate::plan::{Full, Plan, Short};
use lio_operators::{Outcome, outcome2, plain_outcome};
use lio_syntax_lines::{One, Operand, Simple, Two};
use lio_task_turns::{Standing, operands};
use lio_values::{Name, Small};

/// The plan of a statement that opens no block.
#[inline(always)]
pub(crate) fn short_simple<'s>(task: &Standing<'_>, simple: &'s Simple) -> Plan<'s>
    ensures plan { PlansSimple task.now simple.now result }
    ensures leads { LeadsFrom simple.now result }
{
    match simple {
        Simple::Let(name, value) => short_let(task, simple, name, value),
        Simple::LetOne(name, op, value) => short_let_one(task, simple, name, *op, value),
        Simple::LetTwo(name, left, op, right) => {
            short_let_two(task, simple, name, left, *op, right)
        }
        _ => Plan::Full(Full::Statement(simple)),
    }
}

/// `let X = A`
#[inline(always)]
fn short_let<'s>(
    task: &Standing<'_>,
    simple: &'s Simple,
    name: &'s Name,
    value: &Operand,
) -> Plan<'s>
    requires { simple.now ≡ line.Let name.now value.now }
    ensures plan { PlansSimple task.now simple.now result }
    ensures leads { LeadsFrom simple.now result }
{
    let Some(plain) = operands::bare(task.environment(), value) else {
        return Plan::Full(Full::Statement(simple));
    };
    match Small::of(plain) {
        Some(small) => Plan::Short(Short::Set(name, small)),
        None => Plan::Full(Full::Statement(simple)),
    }
}

/// `let X = OP A`
#[inline(always)]
fn short_let_one<'s>(
    task: &Standing<'_>,
    simple: &'s Simple,
    name: &'s Name,
    op: One,
    value: &Operand,
) -> Plan<'s>
    requires { simple.now ≡ line.LetOne name.now op value.now }
    ensures plan { PlansSimple task.now simple.now result }
    ensures leads { LeadsFrom simple.now result }
{
    match operands::bare(task.environment(), value) {
        Some(plain) => answered(simple, name, plain_outcome(op, plain)),
        None => Plan::Full(Full::Statement(simple)),
    }
}

/// `let X = A OP B`
#[inline(always)]
fn short_let_two<'s>(
    task: &Standing<'_>,
    simple: &'s Simple,
    name: &'s Name,
    left: &Operand,
    op: Two,
    right: &Operand,
) -> Plan<'s>
    requires { simple.now ≡ line.LetTwo name.now left.now op right.now }
    ensures plan { PlansSimple task.now simple.now result }
    ensures leads { LeadsFrom simple.now result }
{
    let environment = task.environment();
    let Some(left) = operands::bare(environment, left) else {
        return Plan::Full(Full::Statement(simple));
    };
    match operands::bare(environment, right) {
        Some(right) => answered(simple, name, outcome2(op, left, right)),
        None => Plan::Full(Full::Statement(simple)),
    }
}

/// What an operator gives is bound, or the step is refused.
#[inline(always)]
fn answered<'s>(simple: &'s Simple, name: &'s Name, outcome: Outcome) -> Plan<'s>
    ensures plan { PlansOutcome simple.now name.now outcome result }
    ensures leads { LeadsFrom simple.now result }
{
    match outcome {
        Outcome::Value(value) => Plan::Short(Short::Set(name, value)),
        Outcome::Fault(trap) => Plan::Full(Full::Refused(trap)),
        Outcome::Large => Plan::Full(Full::Statement(simple)),
    }
}
