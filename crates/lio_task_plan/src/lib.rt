//! The turns of statements on nodes and children, and the plan of a task's next turn: what it does,
//! and how the task goes on after it.
#![tactic(auto)]

mod binding;
mod births;
mod front;
mod full;
mod nodes;
mod plan;
mod short;
mod simple;

pub use births::{plan_fork, plan_spawn};
pub use front::plan_next;
pub use full::{content_of, plan_full};
pub use nodes::{
    plan_fullvar, plan_newref, plan_newvar, plan_put, plan_read, plan_send, plan_take, plan_wait,
    plan_write,
};
pub use plan::{Control, Ending, Full, Plan, Short};
