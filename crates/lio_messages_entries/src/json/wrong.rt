//! A mistake in a text that is to be JSON.

use lio_messages_hints::Piece;

/// The first mistake in a text: its place in bytes, from 0, and what is told of it.
#[derive(Clone, Copy)]
pub(crate) struct Wrong<'t> {
    /// Its place.
    pub place: usize,
    /// What is told of it.
    pub template: &'static str,
    /// What stands in that.
    pub first: Piece<'t>,
    /// What stands in it behind that.
    pub second: Piece<'t>,
}

/// A mistake at a place.
pub(crate) fn wrong_at<'t>(place: usize, template: &'static str) -> Wrong<'t> {
    Wrong {
        place,
        template,
        first: Piece::Nothing,
        second: Piece::Nothing,
    }
}

/// A mistake that is told with the byte at its place.
pub(crate) fn wrong_byte<'t>(bytes: &'t [u8], place: usize, template: &'static str) -> Wrong<'t> {
    let byte = bytes.get(place..place.saturating_add(1)).unwrap_or(b"");
    Wrong {
        place,
        template,
        first: Piece::Shown(byte),
        second: Piece::Nothing,
    }
}
