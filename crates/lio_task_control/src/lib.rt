//! Where a task stands in its script: what its names are bound to, and what it still has to do, as
//! frames of places in the script's lines.
#![tactic(auto)]

mod continuation;
mod effects;
mod environment;
mod faults;
mod frame;
mod front;
mod places;
mod stood;

pub use continuation::Continuation;
pub use environment::Environment;
pub use front::Front;
pub use stood::Stood;
