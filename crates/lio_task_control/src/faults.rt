//! What a handler sees of a fault.
ghost use Rattle.std.specs.Prelude.{◌≡◌, pos, IfOk};
ghost use Rattle.lio_syntax.specs.Throwing as spec;

use lio_clauses::NoMemory;
use lio_values::{FaultKind, Plain};
use std::alloc::Global;

/// The number of a kind of fault.
pub(crate) fn code_of(kind: &FaultKind) -> i64
    ensures { result ≡ pos (spec.code_of kind.now) }
{
    match kind {
        FaultKind::FlowCurrent(..) => 1,
        FaultKind::FlowClearance(..) => 2,
        FaultKind::FlowRaise(..) => 3,
        FaultKind::FlowPrivilege(..) => 4,
        FaultKind::BadType => 5,
        FaultKind::Overflow => 6,
        FaultKind::DivZero => 7,
        FaultKind::TooLong => 8,
        FaultKind::NoTurns => 9,
        FaultKind::NoCells(..) => 10,
        FaultKind::ChildTurns(..) => 11,
        FaultKind::Depth => 12,
        FaultKind::LabelWide(..) => 13,
        FaultKind::User(_) => 14,
    }
}

/// The thrown value, or unit.
pub(crate) fn payload_of(alloc: Global, kind: &FaultKind) -> Result<Plain, NoMemory>
    ensures { IfOk result (λ plain. plain ≡ spec.payload_of kind.now) }
{
    match kind {
        FaultKind::User(plain) => plain.copy(alloc),
        _ => Ok(Plain::Unit),
    }
}
