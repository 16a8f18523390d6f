//! The laws of the text of formulas. Each function does nothing: its contract is the law.
#![tactic(auto, using(crate::proofs::PrintedLemmas::laws))]

ghost use Rattle.lio_clauses.specs.Grammar.{DerivedIsRead, DerivedTwoAreRead, ReadIsDerived};
ghost use Rattle.lio_clauses.specs.Grammar.{ReadTwoAreDerived};
ghost use Rattle.lio_clauses.specs.PrintedText.{ReadsPrinted, ReadsTwoPrinted};

/// What is read is of the grammar, with the clauses that were read.
pub fn read_is_derived()
    ensures { ReadIsDerived }
{}

/// What is of the grammar is read.
pub fn derived_is_read()
    ensures { DerivedIsRead }
{}

/// The two formulas that are read are of the grammar.
pub fn read_two_are_derived()
    ensures { ReadTwoAreDerived }
{}

/// Two formulas that are of the grammar are read.
pub fn derived_two_are_read()
    ensures { DerivedTwoAreRead }
{}

/// What is printed is read as the same formula, over the same names.
pub fn printed_is_read()
    ensures { ReadsPrinted }
{}

/// Two formulas that are printed are read as the same ones, over the same names.
pub fn printed_two_are_read()
    ensures { ReadsTwoPrinted }
{}
