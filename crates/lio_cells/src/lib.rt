//! Nodes: references, blocking variables, channels and the results of tasks, with what acts make of
//! them. Source: the concurrent calculus of LIO, ICFP 2012.
#![tactic(auto)]

mod bytes;
mod log;
mod node;
mod ready;
mod reply;
mod reserve;
mod room;
mod served;
mod state;
mod waiter;
mod wish;

pub use bytes::Bytes;
pub use node::Node;
pub use state::State;
pub use waiter::{Waiter, Waiters};
pub use wish::Wish;
