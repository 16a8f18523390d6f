//! Reading the lines of journals and of views.
//!
//! A line is read loosely: each reader takes what stands there for what it is to be, and gives
//! something else where it isn't. What was read is printed again, and the line is an entry's
//! exactly where the two texts are the same. So no spelling but the printed one is read, and each
//! inner reader promises no more than that it finds what is printed.
#![tactic(auto)]

mod acts;
mod births;
mod cursor;
mod entry;
mod fault;
mod faults;
mod fits;
mod labels;
pub mod laws;
mod lists;
mod numbers;
mod plain;
mod replies;
mod start;
mod values;
mod words;

pub use entry::{actor_of, read_entry, read_seen};
pub use fault::EntryFault;
pub use fits::journal_fits;
