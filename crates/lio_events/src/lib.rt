//! Journals: their text, and what observers see of them.
#![tactic(auto)]

mod channel;
mod contents;
mod journal;
pub mod laws;
mod print;
mod released;
mod seen;

pub use channel::channel_bytes;
pub use contents::Contents;
pub use journal::Journal;
pub use lio_values::{print_content, print_value};
pub use print::{print_entry, print_journal};
pub use released::releases;
pub use seen::view;
