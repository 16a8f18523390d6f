//! The rounds of a machine as a future, and what an observer sees of them as a stream.
#![tactic(auto)]

pub mod laws;
mod rounds_future;
mod seen;
mod view_stream;

pub use rounds_future::RoundsFuture;
pub use view_stream::ViewStream;
