//! Why fields are not read.

use lio_clauses::{NoMemory, TextFault};
use std::alloc::{AllocError, AllocFailed};

/// Why fields are not read.
#[derive(Debug, Drop)]
pub enum FieldFault {
    /// They write nothing of this kind.
    Invalid,
    /// A formula or a label in them is refused.
    Text(TextFault),
    NoMemory,
}

impl From<TextFault> for FieldFault {
    fn from(fault: TextFault) -> FieldFault {
        FieldFault::Text(fault)
    }
}

impl From<NoMemory> for FieldFault {
    fn from(_: NoMemory) -> FieldFault {
        FieldFault::NoMemory
    }
}

impl From<AllocError> for FieldFault {
    fn from(_: AllocError) -> FieldFault {
        FieldFault::NoMemory
    }
}

impl<T: Drop> From<AllocFailed<T>> for FieldFault {
    fn from(_: AllocFailed<T>) -> FieldFault {
        FieldFault::NoMemory
    }
}
