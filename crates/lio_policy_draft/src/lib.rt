//! The drafts of policies: a JSON text to the texts and numbers that it has, or to the first rule
//! on its shape that it breaks and the first entry that does.
#![tactic(auto)]

mod conversion;
mod document;
mod draft;
mod entries;
mod fault;
mod json;
mod limits;
mod numbering;
mod shape;

pub use conversion::{Conversion, each};
pub use document::read_draft;
pub use draft::{ArgDraft, Draft, FileDraft, TaskDraft};
pub use entries::{
    FIRST_PRINCIPAL, each_entry, fault_at, first_channel, first_input, first_task, shown,
};
pub use fault::PolicyFault;
pub use limits::{Limits, limits_of};
pub use numbering::{EntryAt, EntryKind, entry_at};
