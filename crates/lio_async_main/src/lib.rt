//! The host over futures: the words, the policy, the script, the inputs, the rounds as a future,
//! the view as a stream, the files, and the summary.
#![tactic(auto)]

mod coop;
mod running;
mod words;

pub use coop::{CoopOutcome, coop_main};
pub use lio_front::Status as CoopStatus;
pub use running::first_machine;
pub use words::read_words;
