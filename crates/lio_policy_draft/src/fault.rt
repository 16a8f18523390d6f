//! Why a policy is not read.
use lio_clauses::NoMemory;
use thiserror::Error;

/// Why a policy is not read.
#[derive(Debug, Clone, Copy, PartialEq, Eq, Error)]
pub enum PolicyFault {
    /// The first rule that fails, and the first entry at which it does. Entry 0 is the document;
    /// principals, channels, inputs and tasks follow from 1, in this order. An entry above
    /// 4,294,967,295 is given as 4,294,967,295.
    #[error("rule {rule} fails at entry {entry}")]
    Bad { rule: u32, entry: u32 },
    /// Memory was refused.
    #[error("out of memory")]
    NoMemory,
}

impl From<NoMemory> for PolicyFault {
    ghost use Rattle.std.specs.Prelude.{◌≡◌};
    ghost use Rattle.lio_policy_draft.specs.declared.fault.PolicyFault.TheVariants.{NoMemory as without_memory};

    ghost from_gives = { λ _ fault. fault ≡ without_memory };

    fn from(_cause: NoMemory) -> PolicyFault {
        PolicyFault::NoMemory
    }
}
