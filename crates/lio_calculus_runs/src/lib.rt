//! Runs of the calculus: the order in which tasks take their turns, when a run is complete,
//! well-formed configurations, the principals that runs name, and the privileges by which they
//! release.
#![tactic(auto)]

pub mod name_laws;
pub mod round_laws;
