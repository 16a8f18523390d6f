//! The calculus: definitions, the laws of what observers see, and the laws of logs of cells.
#![tactic(auto)]

pub mod laws;
pub mod log_laws;
