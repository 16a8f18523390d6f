//! Commands on principals, formulas, labels, entries and operators, and what each answers.
#![tactic(auto)]

mod answers;
mod commands;
mod entries;
mod formulas;
mod labels;
mod names;
mod operators;
mod refusal;

pub use answers::{Answer, Answered};
pub use commands::answer;
pub use refusal::Refusal;
