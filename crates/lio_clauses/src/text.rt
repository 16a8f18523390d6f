//! The text of formulas:
//!
//!     formula = "True" | "False" | clause { "/\" clause }
//!     clause  = name | "(" name { "\/" name } ")"
//!
//! Blanks between tokens are skipped.

mod clauses;
mod cursor;
mod grammar;
pub mod laws;
mod print;
mod read;
mod token;
