//! Operators: what they give on plain values, sealed values and handles.
#![tactic(auto)]

mod faults;
mod flags;
mod labels;
pub mod laws;
mod lists;
mod operate;
mod outcome;
mod outcomes;
mod texts;
mod wholes;

pub use faults::OpFault;
pub use operate::{operate_plains, operate_sealed, operate1, operate2};
pub use outcome::Outcome;
pub use outcomes::{outcome1, outcome2, plain_outcome};
