//! Operands, and the turns of statements on labels and of accesses: what each does, and how the
//! task goes on after it.
#![tactic(auto)]

mod access;
mod guarded;
mod labels;
pub mod operands;
mod procedure;
mod standing;
mod turn;

pub use guarded::both;
pub use procedure::Procedure;
pub use standing::Standing;
pub use turn::{Attempt, Onward, Target, Turn};
