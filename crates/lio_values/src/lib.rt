//! What the calculus speaks of: texts, values, faults, acts, replies and the entries of a journal.
#![tactic(auto)]

mod act;
mod entry;
mod erase;
mod fault;
mod held;
mod items;
pub mod laws;
mod list;
mod measures;
mod name;
mod print;
mod print_values;
mod small;
mod text;
mod value;

pub use act::{Act, Birth, Op, Reply};
pub use entry::Entry;
pub use fault::{Fault, FaultKind};
pub use held::Held;
pub use items::Items;
pub use list::List;
pub use name::Name;
pub use print::{print_label, print_number, print_power, print_quoted};
pub use print_values::{
    append_content, append_fault, append_labels, append_value, print_content, print_value,
};
pub use small::{Small, Trap};
pub use text::Text;
pub use value::{Content, Handle, Plain, Value, Values};
