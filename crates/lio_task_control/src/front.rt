//! What comes first in a continuation.
use lio_syntax_lines::{Operand, Simple};
use lio_values::Fault;

/// What comes first.
#[derive(Drop)]
pub enum Front<'t, 's> {
    /// Nothing is left.
    Nothing,
    /// The way back to the caller.
    Back,
    /// A mark: the block whose faults are caught is done.
    Mark,
    /// A fault that nothing catches.
    Fail(&'t Fault),
    /// The access of a statement whose raise is done.
    Access(&'s Simple),
    /// A statement that opens no block.
    Simple(&'s Simple),
    /// An `if` with this condition.
    Choice(&'s Operand),
    /// A `while` with this condition.
    Loop(&'s Operand),
    /// A `try`.
    Guarded,
}
