//! The steps that the programs share: the words, what is read before a script runs, and what is
//! written after it; and the answers.
#![tactic(auto)]

mod clashes;
mod inputs;
pub mod laws;
mod loading;
mod sends;
mod shown;
mod status;
mod summing;
mod texts;
mod words;
mod write;

pub use clashes::clash;
pub use inputs::load_inputs;
pub use loading::{Front, MOST_POLICY_BYTES, MOST_SCRIPT_BYTES, fetch, load, load_policy};
pub use shown::Shown;
pub use status::Status;
pub use summing::summary;
pub use texts::Texts;
pub use words::{Command, Mode, Source, Watch, is_name, read_command};
pub use write::write_out;
