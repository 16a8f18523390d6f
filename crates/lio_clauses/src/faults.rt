//! What the calls of this crate answer in place of a result. `NoMemory` converts to each of
//! them by `?`.
use std::alloc::{AllocError, AllocFailed};
use thiserror::Error;

/// Memory was refused.
#[derive(Debug, Clone, Copy, PartialEq, Eq, Error)]
#[error("out of memory")]
pub struct NoMemory;

/// Why a formula was not made.
#[derive(Debug, Clone, Copy, PartialEq, Eq, Error)]
pub enum FormFault {
    /// Its canonical form has more than 64 clauses.
    #[error("more than 64 clauses")]
    Wide,
    /// Memory was refused.
    #[error("out of memory")]
    NoMemory,
}

/// Why a text is not read. A place above 4,294,967,295 is given as 4,294,967,295.
#[derive(Debug, Clone, Copy, PartialEq, Eq, Error)]
pub enum TextFault {
    /// The token at this place may not stand there, or the text ends there too early.
    #[error("wrong text at place {0}")]
    BadText(u32),
    /// The name at this place is of no principal.
    #[error("unknown name at place {0}")]
    Unknown(u32),
    /// The canonical form has more than 64 clauses.
    #[error("more than 64 clauses")]
    Wide,
    /// Memory was refused.
    #[error("out of memory")]
    NoMemory,
}

/// Why a name is not added.
#[derive(Debug, Clone, Copy, PartialEq, Eq, Error)]
pub enum NameFault {
    /// The name is there already, with this number.
    #[error("the name is there already, with number {0}")]
    Again(u32),
    /// The byte at this place may not stand there. It is 0 for the empty name, and 32 for a name
    /// that is too long.
    #[error("the name has a wrong byte at place {0}")]
    BadName(u32),
    /// 64 names are there.
    #[error("there are 64 names already")]
    TooMany,
    /// Memory was refused.
    #[error("out of memory")]
    NoMemory,
}

impl From<AllocError> for NoMemory {
    fn from(_cause: AllocError) -> NoMemory {
        NoMemory
    }
}

impl<T: Drop> From<AllocFailed<T>> for NoMemory {
    fn from(_cause: AllocFailed<T>) -> NoMemory {
        NoMemory
    }
}

impl From<NoMemory> for FormFault {
    ghost use Rattle.std.specs.Prelude.{◌≡◌};
    ghost use Rattle.lio_clauses.specs.declared.faults.FormFault.TheVariants.{NoMemory};

    ghost from_gives = { λ _ fault. fault ≡ NoMemory };

    fn from(_cause: NoMemory) -> FormFault {
        FormFault::NoMemory
    }
}

impl From<NoMemory> for TextFault {
    ghost use Rattle.std.specs.Prelude.{◌≡◌};
    ghost use Rattle.lio_clauses.specs.declared.faults.TextFault.TheVariants.{NoMemory};

    ghost from_gives = { λ _ fault. fault ≡ NoMemory };

    fn from(_cause: NoMemory) -> TextFault {
        TextFault::NoMemory
    }
}

impl From<AllocError> for NameFault {
    ghost use Rattle.std.specs.Prelude.{◌≡◌};
    ghost use Rattle.lio_clauses.specs.declared.faults.NameFault.TheVariants.{NoMemory};

    ghost from_gives = { λ _ fault. fault ≡ NoMemory };

    fn from(_cause: AllocError) -> NameFault {
        NameFault::NoMemory
    }
}

impl<T: Drop> From<AllocFailed<T>> for NameFault {
    ghost use Rattle.std.specs.Prelude.{◌≡◌};
    ghost use Rattle.lio_clauses.specs.declared.faults.NameFault.TheVariants.{NoMemory};

    ghost from_gives = { λ _ fault. fault ≡ NoMemory };

    fn from(_cause: AllocFailed<T>) -> NameFault {
        NameFault::NoMemory
    }
}

impl From<FormFault> for TextFault {
    ghost use Rattle.std.specs.Prelude.{◌≡◌};
    ghost use Rattle.lio_clauses.specs.FormFault.{text_fault};

    ghost from_gives = { λ cause fault. fault ≡ text_fault cause };

    fn from(cause: FormFault) -> TextFault {
        match cause {
            FormFault::Wide => TextFault::Wide,
            FormFault::NoMemory => TextFault::NoMemory,
        }
    }
}
