//! The words of the command line, and the command that they give.

mod command;
mod numbers;
mod place;
mod said;
mod sorted;

pub use command::{Command, Mode, Source, Watch, read_command};
pub use sorted::is_name;
