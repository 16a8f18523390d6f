//! The outside of the host: stores of named bytes and outputs, with a count of their faults.
#![tactic(auto)]

mod calls;
mod files;
pub mod laws;
mod mem_say;
mod mem_store;
mod say;
mod store;
mod sure_say;
mod sure_store;

pub use mem_say::MemSay;
pub use mem_store::MemStore;
pub use say::{Say, SayFault};
pub use store::{FetchFault, KeepFault, Readers, Store, Trouble};
pub use sure_say::SureSay;
pub use sure_store::SureStore;
