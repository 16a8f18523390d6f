//! Why bytes are no history.

use lio_clauses::NoMemory;
use thiserror::Error;

/// Why bytes are no history of a complete run.
#[derive(Debug, Clone, Copy, PartialEq, Eq, Error)]
pub enum AuditFault {
    /// The first line, from 1, that isn't that of the next turn, or that is missing though a task
    /// can take a turn; 0 where there are too many bytes.
    #[error("line {0} isn't that of the run's next turn")]
    NotARun(u32),
    /// No memory was left.
    #[error("out of memory")]
    NoMemory,
}

impl From<NoMemory> for AuditFault {
    ghost use Rattle.std.specs.Prelude.{◌≡◌};
    ghost use Rattle.lio_audit.specs.declared.fault.AuditFault.TheVariants.{NoMemory as without_memory};

    ghost from_gives = { λ _ fault. fault ≡ without_memory };

    fn from(_cause: NoMemory) -> AuditFault {
        AuditFault::NoMemory
    }
}
