//! A workload that is generated: a policy, a script and inputs as texts.

mod inputs;
mod made;
mod patterns;
mod policy;

pub(crate) use made::{Made, make};
