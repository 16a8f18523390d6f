//! The laws of operators. Each function does nothing: its contract is the law.
#![tactic(auto, using(crate::proofs::OperatorLemmas::laws))]

ghost use Rattle.lio_operators.specs.Laws.{HiddenFromOne, HiddenFromTwo, OneGivesSimple};
ghost use Rattle.lio_operators.specs.Laws.{TwoGiveParts, OneGivesShort, TwoGiveShort};

/// An operator on one value doesn't see what is hidden from an observer.
pub fn hidden_from_one()
    ensures { HiddenFromOne }
{}

/// An operator on two values doesn't see what is hidden from an observer.
pub fn hidden_from_two()
    ensures { HiddenFromTwo }
{}

/// What an operator on one value gives is a bare flag, whole, text or label.
pub fn one_gives_simple()
    ensures { OneGivesSimple }
{}

/// What an operator on two values gives is a bare flag, whole, text or label, an item of the left
/// one, or a list of parts of them.
pub fn two_give_parts()
    ensures { TwoGiveParts }
{}

/// A text that an operator gives has at most so many bytes as texts may have, but that an item of a
/// list is given as it is.
pub fn gives_short()
    ensures one { OneGivesShort }
    ensures two { TwoGiveShort }
{}
