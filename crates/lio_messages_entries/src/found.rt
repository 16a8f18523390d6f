//! A mistake of an entry.

use lio_clauses::NoMemory;
use lio_messages_hints::{Message, Piece};
use std::alloc::Global;

/// What is wrong with an entry of a policy.
#[derive(Drop)]
pub struct PolicyMistake {
    /// The line and the column at which the text is no JSON, from 1.
    pub position: Option<(usize, usize)>,
    /// What is wrong, and how to mend it.
    pub text: String,
}

/// The mistake in an entry, if one was found.
pub(crate) type Found = Result<Option<PolicyMistake>, NoMemory>;

/// A mistake of an entry, told by a message.
pub(crate) fn told_by(message: Message) -> Found {
    let text = message.finish()?;
    Ok(Some(PolicyMistake {
        position: None,
        text,
    }))
}

/// A mistake of an entry.
pub(crate) fn told(alloc: Global, text: &str) -> Found {
    told_two(alloc, text, Piece::Nothing, Piece::Nothing)
}

/// A mistake of an entry, told by a template and what stands in it.
pub(crate) fn told_one(alloc: Global, template: &str, piece: Piece<'_>) -> Found {
    told_two(alloc, template, piece, Piece::Nothing)
}

/// A mistake of an entry, told by a template and the two pieces that stand in it.
pub(crate) fn told_two(
    alloc: Global,
    template: &str,
    first: Piece<'_>,
    second: Piece<'_>,
) -> Found {
    told_three(alloc, template, first, second, Piece::Nothing)
}

/// A mistake of an entry, told by a template and the three pieces that stand in it.
pub(crate) fn told_three(
    alloc: Global,
    template: &str,
    first: Piece<'_>,
    second: Piece<'_>,
    third: Piece<'_>,
) -> Found {
    let mut message = Message::new(alloc);
    message.fill(template, first, second, third);
    told_by(message)
}
