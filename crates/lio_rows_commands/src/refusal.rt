//! Why a command has no answer.

use lio_clauses::{FormFault, NameFault, NoMemory, TextFault};
use lio_events_reading::EntryFault;
use lio_rows_fields::FieldFault;
use std::alloc::{AllocError, AllocFailed};
use std::fmt;

/// Why a command has no answer. A fault is written as its type writes it, with its numbers.
#[derive(Drop)]
pub enum Refusal {
    /// The line is no command.
    NoCommand,
    /// A principal isn't named.
    Name(NameFault),
    /// A formula or a label isn't read.
    Text(TextFault),
    /// A formula isn't made.
    Form(FormFault),
    /// A line isn't that of an entry.
    Entry(EntryFault),
    NoMemory,
}

impl fmt::Display for Refusal {
    fn fmt<W: fmt::Write>(&self, f: &mut fmt::Formatter<W>) -> fmt::Result {
        match self {
            Refusal::NoCommand => f.write_str("no command"),
            Refusal::Name(fault) => write!(f, "{fault:?}"),
            Refusal::Text(fault) => write!(f, "{fault:?}"),
            Refusal::Form(fault) => write!(f, "{fault:?}"),
            Refusal::Entry(fault) => write!(f, "{fault:?}"),
            Refusal::NoMemory => f.write_str("NoMemory"),
        }
    }
}

impl From<NameFault> for Refusal {
    fn from(fault: NameFault) -> Refusal {
        Refusal::Name(fault)
    }
}

impl From<TextFault> for Refusal {
    fn from(fault: TextFault) -> Refusal {
        Refusal::Text(fault)
    }
}

impl From<FormFault> for Refusal {
    fn from(fault: FormFault) -> Refusal {
        Refusal::Form(fault)
    }
}

impl From<EntryFault> for Refusal {
    fn from(fault: EntryFault) -> Refusal {
        Refusal::Entry(fault)
    }
}

impl From<FieldFault> for Refusal {
    fn from(fault: FieldFault) -> Refusal {
        match fault {
            FieldFault::Invalid => Refusal::NoCommand,
            FieldFault::Text(fault) => Refusal::Text(fault),
            FieldFault::NoMemory => Refusal::NoMemory,
        }
    }
}

impl From<NoMemory> for Refusal {
    fn from(_: NoMemory) -> Refusal {
        Refusal::NoMemory
    }
}

impl From<AllocError> for Refusal {
    fn from(_: AllocError) -> Refusal {
        Refusal::NoMemory
    }
}

impl<T: Drop> From<AllocFailed<T>> for Refusal {
    fn from(_: AllocFailed<T>) -> Refusal {
        Refusal::NoMemory
    }
}
