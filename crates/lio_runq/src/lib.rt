//! The queue of the numbers of tasks that are to be tried, which threads share.
#![tactic(auto)]

mod passes;
mod queue;
mod rule;

pub use passes::RunPass;
pub use queue::RunQueue;
pub use rule::Bound;
