//! Where the walk over the words stands.

use crate::words::said::Name;

/// Where the walk stands.
#[derive(Clone, Copy)]
pub enum Place {
    /// Among options and plain words.
    Anywhere,
    /// Behind an option, whose value comes.
    Behind(Name),
    /// Behind `--`, where all words are plain.
    PlainOnly,
}
