//! The check of an observer: the words, the policy, the script, the inputs that it sees, its view,
//! and what is said of it.
#![tactic(auto)]

mod checking;
mod claim;
mod expected;
mod inputs;
mod observe;
mod words;

pub use claim::{Claim, load_claim};
pub use expected::expected_line;
pub use lio_front::{Shown, Status as ObserveStatus};
pub use observe::{Observed, Read, observe_main, observe_read};
pub use words::{Command, read_words};
