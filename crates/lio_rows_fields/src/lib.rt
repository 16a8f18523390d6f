//! Commands, and values and entries as the fields of a command write them.
#![tactic(auto)]

mod command;
mod escaping;
mod fault;
mod formulas;
mod numbers;
mod turns;
mod values;
mod words;

pub use command::{Command, read_command};
pub use escaping::escape;
pub use fault::FieldFault;
pub use formulas::{read_formulas, read_labels, read_set};
pub use numbers::{read_number, read_numbers};
pub use turns::{read_entry, read_journal};
pub use values::{read_label, read_value};
pub use words::Words;
