//! Questions about a policy, a script and a history: the words, what is read for them, and what is
//! said. No file is written.
#![tactic(auto)]

mod answer;
mod asking;
mod explain;
mod past;
mod print;
mod standing;
mod tell;
mod troubles;
mod words;

pub use answer::Answer;
pub use asking::{Asked, ask};
pub use past::{Past, load_past};
pub use standing::said_lines;
pub use words::{Files, Question, read_question};
