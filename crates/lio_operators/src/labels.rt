//! Operators on two labels.
ghost use Rattle.std.specs.Prelude.{◌≡◌, IsTrue};
ghost use Rattle.lio_operators.specs.Answers.{Answers};
ghost use Rattle.lio_labels.specs.Bounds.{join, meet};
ghost use Rattle.lio_operators.specs.Labels as spec;
ghost use Rattle.lio_operators.specs.Labels.{bounded};
ghost use Rattle.lio_operators.specs.Operators.{bare};
ghost use Rattle.lio_operators.specs.Outcomes.{Tells, bounds, is_large};

use crate::faults::OpFault;
use crate::outcome::Outcome;
use lio_clauses::FormFault;
use lio_labels::Label;
use lio_syntax_lines::Two;
use lio_values::{FaultKind, Plain, Small, Trap};
use std::alloc::Global;

/// The fault of two labels whose bound is wide.
fn wide(alloc: Global, a: &Label, b: &Label) -> Result<Plain, OpFault>
    ensures { Answers (Err (FaultKind.LabelWide a.now b.now)) result }
{
    let left = a.copy(alloc)?;
    let right = b.copy(alloc)?;
    Err(OpFault::Kind(FaultKind::LabelWide(left, right)))
}

/// The least label that both flow to.
fn join_of(alloc: Global, a: &Label, b: &Label) -> Result<Plain, OpFault>
    ensures { Answers (bounded a.now b.now (join a.now b.now)) result }
{
    match a.join(alloc, b) {
        Ok(label) => Ok(Plain::Lab(label)),
        Err(FormFault::Wide) => wide(alloc, a, b),
        Err(FormFault::NoMemory) => Err(OpFault::NoMemory),
    }
}

/// The greatest label that flows to both.
fn meet_of(alloc: Global, a: &Label, b: &Label) -> Result<Plain, OpFault>
    ensures { Answers (bounded a.now b.now (meet a.now b.now)) result }
{
    match a.meet(alloc, b) {
        Ok(label) => Ok(Plain::Lab(label)),
        Err(FormFault::Wide) => wide(alloc, a, b),
        Err(FormFault::NoMemory) => Err(OpFault::NoMemory),
    }
}

/// What an operator on two labels gives without memory.
pub(crate) fn small_of_labels(op: Two, a: &Label, b: &Label) -> Outcome
    ensures large { is_large result ≡ bounds op }
    ensures given { Tells result (bare (spec.on_labels op a.now b.now)) }
{
    match op {
        Two::Eq => Outcome::Value(Small::Flag(a == b)),
        Two::Ne => Outcome::Value(Small::Flag(a != b)),
        Two::Flows => Outcome::Value(Small::Flag(a.flows(b))),
        Two::Join | Two::Meet => Outcome::Large,
        _ => Outcome::Fault(Trap::BadType),
    }
}

/// A bound of two labels.
pub(crate) fn bound(alloc: Global, op: Two, a: &Label, b: &Label) -> Result<Plain, OpFault>
    requires { IsTrue (bounds op) }
    ensures { Answers (spec.on_labels op a.now b.now) result }
{
    match op {
        Two::Join => join_of(alloc, a, b),
        _ => meet_of(alloc, a, b),
    }
}
