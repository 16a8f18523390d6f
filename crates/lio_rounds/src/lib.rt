//! Machines and runs: a configuration with its script, which takes turns by hand, by rounds or by a
//! schedule, and keeps their journal. And one journal of the logs of its nodes.
#![tactic(auto)]

mod awake;
mod by_rounds;
mod by_schedule;
pub mod laws;
mod logs;
mod machine;
mod order;
mod places;

pub use by_rounds::{Ran, run};
pub use by_schedule::{Scheduled, run_by_schedule};
pub use lio_task::StepFault as TurnFault;
pub use logs::merge;
pub use machine::Machine;
pub use order::put_in_order;
