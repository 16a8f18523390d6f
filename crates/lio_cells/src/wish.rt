//! What tasks at their accesses wait for.

/// What a task at its access waits for.
#[derive(Clone, Copy, Debug, PartialEq, Eq)]
pub enum Wish {
    /// A full variable.
    Take,
    /// An empty variable.
    Put,
    /// The result of a task.
    Wait,
}
