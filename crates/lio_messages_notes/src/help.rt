//! What helps where a turn threw a fault, in words.

use crate::seen::{Kind, Seen, Want, kind_of};
use crate::wrong::{Wrong, wrong_operand};
use lio_labels::Label;
use lio_start::Job;
use lio_task_control::Stood;
use lio_values::FaultKind;

/// What helps where a task's current label doesn't flow to a target's.
fn help_current(current: &Label, target: &Label) -> &'static str {
    if target.secrecy.implies(&current.secrecy) {
        "who vouches for a task says its \"label\" in the policy, until it learns something that is less trusted"
    } else {
        "no task unlearns: do this before it learns, or learn by a privilege (unlabel X A using P)"
    }
}

/// What helps where a value is of one kind, and another is wanted.
fn help_kind(kind: Kind, want: Kind) -> &'static str {
    match (kind, want) {
        (Kind::TaskResult, Kind::Sealed) => {
            "wait for it; what a child has learned isn't released by a privilege of who waits"
        }
        (_, Kind::Privilege) => "a task has the privileges alone that the policy gives it",
        (_, Kind::Channel) => "a task has the channels alone that the policy gives it",
        (Kind::Sealed, _) => "unlabel it first",
        (Kind::Whole | Kind::Flag | Kind::Unit, Kind::Text) => "let X = str A makes a text of it",
        (Kind::Text, Kind::Whole) => "let X = num A reads a whole from a text",
        (Kind::Whole | Kind::Flag | Kind::Unit | Kind::Text | Kind::List, Kind::Sealed) =>
            "what isn't sealed is learned already",
        (
            Kind::Reference | Kind::Variable | Kind::TaskResult,
            Kind::Reference | Kind::Variable | Kind::TaskResult,
        ) => "a reference is read, a variable is taken from, a result is waited for",
        (Kind::Reference, _) => "read it first",
        (Kind::Variable, _) => "take from it first",
        (Kind::TaskResult, _) => "wait for it first",
        _ => "",
    }
}

/// What helps where a value of a kind isn't what it is to be.
fn help_want(kind: Kind, want: Want) -> &'static str {
    match (kind, want) {
        (_, Want::Of(wanted)) => help_kind(kind, wanted),
        (Kind::Sealed, _) => "unlabel it first",
        _ => "",
    }
}

/// What helps where an operand isn't what it is to be.
fn help_operand(wrong: Wrong<'_>) -> &'static str {
    match wrong.seen {
        Seen::Unbound =>
            "a procedure knows its own names alone: its parameters, and what was bound in it before",
        Seen::Sealed => help_want(Kind::Sealed, wrong.want),
        Seen::Plain(plain) => help_want(kind_of(plain), wrong.want),
    }
}

/// What helps where a task threw a fault that nothing caught, as it stood then; no bytes where
/// nothing is said.
pub(crate) fn help_of(job: &Job, stood: &Stood) -> &'static str {
    match stood.kind() {
        FaultKind::FlowCurrent(current, target) => help_current(current, target),
        FaultKind::FlowClearance(_, _) | FaultKind::FlowRaise(_, _) => {
            "no clearance rises: the policy gives it, and \"lower\" or a parent may lower it"
        }
        FaultKind::FlowPrivilege(_, _, _) => {
            "what an owner has is released by a privilege of that owner alone"
        }
        FaultKind::BadType => match wrong_operand(stood.environment(), &stood.front(job.script())) {
            Some(wrong) => help_operand(wrong),
            None => "",
        },
        FaultKind::NoCells(_, _) => {
            "a reference or a variable takes one cell, a child one and those that it is given"
        }
        FaultKind::ChildTurns(_, _) =>
            "a child's turns are taken from those that its parent has left",
        _ => "",
    }
}
