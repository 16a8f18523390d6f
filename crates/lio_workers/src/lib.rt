//! Workers: threads that share a table of nodes, take the turns of its tasks in whatever order they
//! come to them, and leave no task that can take one.
#![tactic(auto)]

mod by_workers;
mod gate;
mod run;
mod seats;
mod shared;
mod worker;

pub use by_workers::run_by_workers;
pub use gate::{Gate, OpenGate};
pub use run::run_workers;
