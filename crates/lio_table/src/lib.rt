//! A table of nodes that threads share. Each thread steps with a seat of its own, which claims a
//! node or two, lets a task take its turn on them, and gives them back. With the rule that holds
//! between any two atomic steps.
#![tactic(auto)]

mod alone;
mod boxes;
mod claim;
mod close;
mod cut;
pub mod laws;
mod met;
mod origin;
mod park;
mod rule_steps;
mod seat;
mod steps;
mod table;
mod turn;
mod view;

pub use claim::Claim;
pub use close::CloseRefused;
pub use origin::{Origin, Rule, Slot};
pub use rule_steps::{Claiming, Cutting, Drawing, Giving, Joining, Looking, Recorded, Share};
pub use seat::LioSeat;
pub use table::Table;
pub use turn::TurnEnd;
pub use view::{Beginning, Claimed, Given, View};
