//! Why bytes are no view, and why a view can't be computed.

use lio_clauses::NoMemory;
use thiserror::Error;

/// Why bytes are no view of a complete run.
#[derive(Debug, Clone, Copy, PartialEq, Eq, Error)]
pub enum ViewFault {
    /// The first line, from 1, that isn't that of the next turn as the observer sees it, or that is
    /// missing though a task can take a turn; 0 where there are too many bytes.
    #[error("line {0} isn't that of a turn that the observer can see next")]
    NotAView(u32),
    /// No memory was left.
    #[error("out of memory")]
    NoMemory,
}

impl From<NoMemory> for ViewFault {
    ghost use Rattle.std.specs.Prelude.{◌≡◌};
    ghost use Rattle.lio_audit.specs.declared.view_fault.ViewFault.TheVariants.{NoMemory as without_memory};

    ghost from_gives = { λ _ fault. fault ≡ without_memory };

    fn from(_cause: NoMemory) -> ViewFault {
        ViewFault::NoMemory
    }
}

/// Why the view of a run by rounds can't be computed.
#[derive(Debug, Clone, Copy, PartialEq, Eq, Error)]
pub enum RerunFault {
    /// The task with this number releases or exposes a content that wasn't told.
    #[error("no content is left that task {0} releases")]
    NoRelease(u32),
    /// No memory was left.
    #[error("out of memory")]
    NoMemory,
}

impl From<NoMemory> for RerunFault {
    ghost use Rattle.std.specs.Prelude.{◌≡◌};
    ghost use Rattle.lio_audit.specs.declared.view_fault.RerunFault.TheVariants.{NoMemory as without_memory};

    ghost from_gives = { λ _ fault. fault ≡ without_memory };

    fn from(_cause: NoMemory) -> RerunFault {
        RerunFault::NoMemory
    }
}
