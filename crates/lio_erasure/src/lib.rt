//! The erased calculus: what an observer sees of a configuration, and the turns that it can follow.
//! Source: the erasure of the concurrent calculus of LIO, ICFP 2012.
#![tactic(auto)]

mod acts;
mod cells;
mod erased;
mod gone;
mod hidden;
mod low;
mod made;
mod moves;
mod shown;
mod turns;

pub use cells::LowConfig;
pub use erased::erase_config;
pub use low::{Low, LowFault};
