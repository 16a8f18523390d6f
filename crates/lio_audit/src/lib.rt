//! Checks a history and a view: the run that each tells is taken again.
#![tactic(auto)]

mod expected;
mod fault;
pub mod laws;
mod observer;
mod replay;
mod rerun;
mod view;
mod view_fault;
pub mod view_laws;

pub use expected::expected_line;
pub use fault::AuditFault;
pub use observer::{low_start, low_start_of};
pub use replay::{MOST_HISTORY_BYTES, check_journal};
pub use rerun::rerun_view;
pub use view::check_view;
pub use view_fault::{RerunFault, ViewFault};
