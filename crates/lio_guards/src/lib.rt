//! Guards: whether the labels of a task let an operation go on, and at which current label it goes
//! on. Source: the rules of LIO, ICFP 2012.
#![tactic(auto)]

mod class;
mod faults;
mod guards;
pub mod laws;
mod verdict;

pub use guards::{guard, guard_expose, guard_relabel, may_write};
pub use verdict::Verdict;
