//! What is wrong with a text that is no JSON, at its place.

mod number;
mod place;
mod text;
mod walk;
mod wrong;

pub(crate) use place::position_of;
pub(crate) use walk::first_wrong;
