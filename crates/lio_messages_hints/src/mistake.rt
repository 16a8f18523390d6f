//! A mistake in a line.

use crate::message::{Piece, filled};
use lio_clauses::NoMemory;
use std::alloc::Global;

/// A mistake in a line of a script.
#[derive(Drop)]
pub struct Mistake {
    /// The place in the line where it begins, in bytes, from 0.
    pub place: usize,
    /// What is wrong there, and how to mend it.
    pub text: String,
}

/// The mistake in a line, if one was found.
pub type Found = Result<Option<Mistake>, NoMemory>;

/// A mistake at a place.
pub fn told(alloc: Global, place: usize, text: &str) -> Found {
    let text = String::from_str(alloc, text)?;
    Ok(Some(Mistake { place, text }))
}

/// A mistake at a place, told by a template and what stands in it.
pub fn told_one(alloc: Global, place: usize, template: &str, piece: Piece<'_>) -> Found {
    told_two(alloc, place, template, piece, Piece::Nothing)
}

/// A mistake at a place, told by a template and the two pieces that stand in it.
pub fn told_two(
    alloc: Global,
    place: usize,
    template: &str,
    first: Piece<'_>,
    second: Piece<'_>,
) -> Found {
    let text = filled(alloc, template, first, second, Piece::Nothing)?;
    Ok(Some(Mistake { place, text }))
}
