//! Why an operator gives nothing.
use lio_clauses::NoMemory;
use lio_values::FaultKind;

/// Why an operator gives nothing.
#[derive(Drop)]
pub enum OpFault {
    /// The fault that it gives in place of a value.
    Kind(FaultKind),
    /// Memory was refused.
    NoMemory,
}

impl From<NoMemory> for OpFault {
    ghost use Rattle.std.specs.Prelude.{◌≡◌};
    ghost use Rattle.lio_operators.specs.declared.faults.OpFault.TheVariants.{NoMemory};

    ghost from_gives = { λ _ fault. fault ≡ NoMemory };

    fn from(_cause: NoMemory) -> OpFault {
        OpFault::NoMemory
    }
}

impl From<FaultKind> for OpFault {
    ghost use Rattle.std.specs.Prelude.{◌≡◌};
    ghost use Rattle.lio_operators.specs.declared.faults.OpFault.TheVariants.{Kind};

    ghost from_gives = { λ kind fault. fault ≡ Kind kind };

    fn from(kind: FaultKind) -> OpFault {
        OpFault::Kind(kind)
    }
}
