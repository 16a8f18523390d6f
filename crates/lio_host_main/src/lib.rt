//! The top call: the words, the policy, the script, the inputs, the run, the files, and the
//! summary.
#![tactic(auto)]

mod finish;
mod host;
pub mod laws;
mod order;
mod prepare;
mod running;
mod workload;
mod workload_files;

pub use finish::{finish_run, finish_seen};
pub use host::{Outcome, host_main};
pub use lio_front::{Shown, Status as HostStatus};
pub use order::{Loaded, Order, Way};
pub use prepare::prepare_order;
pub use running::{begin, expected_line};
