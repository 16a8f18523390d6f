//! Why a line is not read.
use lio_clauses::NoMemory;
use thiserror::Error;

/// Why a line is not read.
#[derive(Debug, Clone, Copy, PartialEq, Eq, Error)]
pub enum EntryFault {
    /// No entry over the names of principals has this text.
    #[error("not the text of an entry")]
    NotAnEntry,
    /// Memory was refused.
    #[error("out of memory")]
    NoMemory,
}

impl From<NoMemory> for EntryFault {
    ghost use Rattle.std.specs.Prelude.{◌≡◌};
    ghost use Rattle.lio_events_reading.specs.declared.fault.EntryFault.TheVariants.{NoMemory};

    ghost from_gives = { λ _ fault. fault ≡ NoMemory };

    fn from(_cause: NoMemory) -> EntryFault {
        EntryFault::NoMemory
    }
}
