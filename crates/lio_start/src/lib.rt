//! The start of a policy's tasks in a script: which of them can't begin, what is run (a job), and
//! its first configuration, with the laws of its definition, first of all that it is sound and
//! well-formed.
#![tactic(auto)]

mod beginning;
mod configuration;
mod fault;
mod fitting;
mod holders;
mod inputs;
mod job;
pub mod laws;

pub use configuration::{start, start_over};
pub use fault::StartFault;
pub use fitting::fits;
pub use job::{Job, MaybeTexts};
