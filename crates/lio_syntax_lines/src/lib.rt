//! The words and the lines of scripts: how a line is cut into words, what words are, and which form
//! a line has.
#![tactic(auto)]

mod fault;
mod forms;
mod header;
mod keyword;
mod line;
mod literals;
mod operators;
mod print;
mod read;
mod shapes;
mod words;

pub use header::read_header;
pub use keyword::Keyword;
pub use line::{Line, Operand, Operands, Parameters, ParsedLine, Simple};
pub use literals::{is_name, read_literal, read_whole};
pub use operators::{One, Two};
pub use read::read_line;
pub use words::{split_word, without_return};
