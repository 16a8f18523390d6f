//! What a node keeps ready for an act.

use crate::bytes::Bytes;
use crate::state::State;
use lio_values::{Content, Value};

/// What a node keeps ready for an act: what the act will put into the node's state.
#[derive(Drop)]
pub enum Room {
    /// The act changes nothing.
    Nothing,
    /// A variable will be empty.
    Empties,
    /// A reference or a variable will hold this value.
    Holds(Value),
    /// A channel will have received these bytes in all.
    Receives(Bytes),
    /// The node will be this.
    Becomes(State),
    /// A job will have this result.
    Ends(Content),
}
