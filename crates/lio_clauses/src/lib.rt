//! Formulas of Disjunction Category Labels: conjunctions of clauses, each a disjunction of
//! principals, always in canonical form, and their text over the names of principals.
#![tactic(auto)]

mod faults;
mod formula;
mod keep;
pub mod laws;
mod masks;
mod names;
mod reduce;
mod text;

pub use faults::{FormFault, NameFault, NoMemory, TextFault};
pub use formula::Formula;
pub use keep::{assign, beside};
pub use names::{Names, name_fault};
pub use text::laws as text_laws;
