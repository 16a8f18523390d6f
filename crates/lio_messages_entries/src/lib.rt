//! What is wrong with an entry of a policy that breaks a rule, and how to mend it. What a hint says
//! has no contract; rows show it.
#![tactic(auto)]

mod arguments;
mod document;
mod entry;
mod files;
mod found;
mod json;
mod labels;
mod limits;
mod names;
mod rules;
mod shape;

pub use found::PolicyMistake;
pub use rules::policy_mistake;
