//! Scripts: their procedures, and how a script is read from its text and printed.
#![tactic(auto)]

mod binding;
mod ends;
mod fault;
mod headers;
pub mod laws;
mod open_block;
mod places;
mod print;
mod procedures;
mod progress;
mod ranks;
mod read;
mod rules;
mod script;
mod text;

pub use binding::Binding;
pub use fault::ScriptFault;
pub use places::Place;
pub use print::print_script;
pub use read::{parameter_count, read_script};
pub use script::Script;
