//! Faults.
ghost use Rattle.std.specs.Prelude.{◌≡◌, IfOk};

use crate::held::Held;
use crate::value::Plain;
use lio_clauses::NoMemory;
use lio_labels::{Label, Priv};
use std::alloc::Global;

/// What went wrong.
#[cycle(value)]
#[derive(PartialEq, Eq, Drop)]
pub enum FaultKind {
    /// The current label doesn't flow to the target.
    FlowCurrent(Label, Label),
    /// The target doesn't flow to the clearance.
    FlowClearance(Label, Label),
    /// The raised label doesn't flow to the clearance.
    FlowRaise(Label, Label),
    /// The source doesn't flow to the target with the privilege.
    FlowPrivilege(Priv, Label, Label),
    /// An operand isn't bound, or isn't of the needed kind.
    BadType,
    /// The number isn't of 64 bits with sign.
    Overflow,
    /// A division by zero.
    DivZero,
    /// A text is longer than texts may be, or a list has more items than lists may have.
    TooLong,
    /// The task has no turn left.
    NoTurns,
    /// So many cells were asked for, and so many are left.
    NoCells(u64, u64),
    /// So many turns were asked for, and so many are left.
    ChildTurns(u64, u64),
    /// Too many calls are open.
    Depth,
    /// The two labels' join or meet has more than 64 clauses in a part, or, in an exposure, what
    /// the privilege leaves of the second or its join with the first.
    LabelWide(Label, Label),
    /// Thrown by the script, with this value.
    User(Plain),
}

/// A fault, with the current label of the task when it was thrown.
#[cycle(value)]
#[derive(PartialEq, Eq, Drop)]
pub struct Fault {
    pub kind: FaultKind,
    pub at: Label,
}

/// Copies of two labels.
fn copy_two(alloc: Global, first: &Label, second: &Label) -> Result<(Label, Label), NoMemory>
    ensures { IfOk result (λ labels. (labels.0 ≡ first.now) × (labels.1 ≡ second.now)) }
{
    let first = first.copy(alloc)?;
    let second = second.copy(alloc)?;
    Ok((first, second))
}

impl FaultKind {
    /// An equal kind.
    #[cycle(copy)]
    pub fn copy(&self, alloc: Global) -> Result<FaultKind, NoMemory>
        ensures { IfOk result (λ kind. kind ≡ self.now) }
    {
        match self {
            FaultKind::FlowCurrent(current, target) => {
                let (current, target) = copy_two(alloc, current, target)?;
                Ok(FaultKind::FlowCurrent(current, target))
            }
            FaultKind::FlowClearance(target, clearance) => {
                let (target, clearance) = copy_two(alloc, target, clearance)?;
                Ok(FaultKind::FlowClearance(target, clearance))
            }
            FaultKind::FlowRaise(raised, clearance) => {
                let (raised, clearance) = copy_two(alloc, raised, clearance)?;
                Ok(FaultKind::FlowRaise(raised, clearance))
            }
            FaultKind::FlowPrivilege(power, source, target) => {
                let power = power.copy(alloc)?;
                let (source, target) = copy_two(alloc, source, target)?;
                Ok(FaultKind::FlowPrivilege(power, source, target))
            }
            FaultKind::BadType => Ok(FaultKind::BadType),
            FaultKind::Overflow => Ok(FaultKind::Overflow),
            FaultKind::DivZero => Ok(FaultKind::DivZero),
            FaultKind::TooLong => Ok(FaultKind::TooLong),
            FaultKind::NoTurns => Ok(FaultKind::NoTurns),
            FaultKind::NoCells(asked, left) => Ok(FaultKind::NoCells(*asked, *left)),
            FaultKind::ChildTurns(asked, left) => Ok(FaultKind::ChildTurns(*asked, *left)),
            FaultKind::Depth => Ok(FaultKind::Depth),
            FaultKind::LabelWide(left, right) => {
                let (left, right) = copy_two(alloc, left, right)?;
                Ok(FaultKind::LabelWide(left, right))
            }
            FaultKind::User(plain) => Ok(FaultKind::User(plain.copy(alloc)?)),
        }
    }
}

impl Fault {
    /// An equal fault.
    #[cycle(copy)]
    pub fn copy(&self, alloc: Global) -> Result<Fault, NoMemory>
        ensures { IfOk result (λ fault. fault ≡ self.now) }
    {
        let at = self.at.copy(alloc)?;
        let kind = self.kind.copy(alloc)?;
        Ok(Fault { kind, at })
    }
}

impl Held<Fault> {
    /// An equal fault.
    #[cycle(copy)]
    pub fn copy(&self, alloc: Global) -> Result<Held<Fault>, NoMemory>
        ensures { IfOk result (λ held. held ≡ self.now) }
    {
        Held::new(alloc, self.get().copy(alloc)?)
    }
}
