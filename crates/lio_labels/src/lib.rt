//! Labels of Disjunction Category Labels: who may learn a value (secrecy) and who vouches for it
//! (integrity), each a formula over principals, and privileges, with which a value may flow where
//! its label alone doesn't let it.
#![tactic(auto)]

mod equality;
mod label;
pub mod laws;
mod privilege;
mod text;

pub use label::Label;
pub use privilege::Priv;
