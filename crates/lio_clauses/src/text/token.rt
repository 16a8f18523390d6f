//! The tokens of the text of a formula or a label.

/// A token, with the principal that a name stands for.
#[derive(Clone, Copy, Debug, PartialEq, Eq)]
pub(super) enum Token {
    /// `True`
    Truth,
    /// `False`
    Falsity,
    /// `(`
    Open,
    /// `)`
    Close,
    /// `/\`
    And,
    /// `\/`
    Or,
    /// `%%`, between the secrecy and the integrity of a label
    Over,
    /// The name of the principal with this number.
    Principal(u32),
    /// A name that no principal has.
    Stranger,
    /// A byte that begins no token, and may stand nowhere.
    Stray,
}
