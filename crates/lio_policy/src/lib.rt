//! The reading of policies: a JSON text to the principals, channels, inputs and tasks that it
//! describes, or to the first rule that it breaks and the first entry that does.
#![tactic(auto)]

mod arguments;
mod copies;
mod files;
mod flows;
mod keys;
mod labelled;
mod labels;
pub mod laws;
mod limits;
mod lists;
mod names;
mod policy;
mod read;
mod table;

pub use flows::{MayFlow, may_flow, what_may_flow};
pub use lio_policy_draft::PolicyFault;
pub use policy::{Arg, Args, FileEntries, FileEntry, Policy, TaskEntries, TaskEntry};
pub use read::read_policy;
