//! Notes on how a run ended: which task ended by a fault, where and why, which waits for ever, and
//! which channel received nothing. What a note says has no contract; rows show it.
#![tactic(auto)]

mod found;
mod help;
mod notes;
mod print;
mod printer;
mod reason;
mod seen;
mod source;
mod trace;
mod troubles;
mod wrong;

pub use print::{notes_of, print_notes};
pub use source::Source;
