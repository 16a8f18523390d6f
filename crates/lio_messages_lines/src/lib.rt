//! What is wrong with a line of a script that is none of the forms or breaks another rule, and how
//! to mend it. What a hint says has no contract; rows show it.
#![tactic(auto)]

mod binding;
mod call;
mod expression;
mod extra;
mod first;
mod form;
mod hints;
mod line;
mod operation;
mod parts;
mod procedure;
mod rules;

pub use hints::line_at;
pub use line::line_mistake;
pub use rules::script_mistake;
