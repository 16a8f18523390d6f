//! Tasks and configurations: what the next turn of a task does, how the task goes on after it, and
//! the small step of a configuration.
#![tactic(auto)]

mod birth;
mod config;
mod config_copy;
mod copy;
mod erase;
mod go;
mod going;
mod handle;
pub mod laws;
mod next;
mod outcome;
mod pair;
mod preview;
mod status;
mod task;
mod turn;

pub use config::{Config, Holder, StepFault};
pub use go::Way;
pub use next::Next;
pub use outcome::{born_in, ended_in};
pub use status::Status;
pub use task::Task;
pub use turn::blank_entry;
