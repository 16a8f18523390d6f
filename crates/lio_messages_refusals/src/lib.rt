//! What is printed of a refusal of a program: the answer, what was refused and where, and how to
//! mend it. What it says has no contract; rows show it.
#![tactic(auto)]

mod channels;
mod detail;
mod entry;
mod line;
mod program;
mod refusal;
mod rules;
mod stop;
mod task;
mod words;

pub use detail::{Detail, detail_of, trouble_text};
pub use program::Program;
pub use refusal::{print_refusal, refusal_text};
pub use stop::{Stop, stop_at};
pub use words::{futures_words, script_name};
