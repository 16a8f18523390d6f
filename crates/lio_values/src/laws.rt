//! The laws of erasure and of equality. Each function does nothing: its contract is the law.
#![tactic(auto, using(crate::proofs::AllLaws::laws))]

ghost use Rattle.lio_values.specs.Equality.{IsEquality};
ghost use Rattle.lio_values.specs.Laws.{EntryErasedBelow, EntryErasedTwice, ValueErasedBelow};
ghost use Rattle.lio_values.specs.Laws.{ValueErasedTwice};

use crate::act::{Act, Birth, Reply};
use crate::entry::Entry;
use crate::fault::{Fault, FaultKind};
use crate::value::{Content, Handle, Plain, Value};

/// Erasing a value twice at one label is erasing it once.
pub fn value_erased_twice()
    ensures { ValueErasedTwice }
{}

/// Erasing a value at a lower label after a higher one is erasing it at the lower.
pub fn value_erased_below()
    ensures { ValueErasedBelow }
{}

/// Erasing an entry twice at one label is erasing it once.
pub fn entry_erased_twice()
    ensures { EntryErasedTwice }
{}

/// Erasing an entry at a lower label after a higher one is erasing it at the lower.
pub fn entry_erased_below()
    ensures { EntryErasedBelow }
{}

/// `==` of handles, plain values, contents and values is true exactly where they are equal.
pub fn equality_of_values()
    ensures handles { IsEquality ⟦<Handle as PartialEq>⟧.eq }
    ensures plains { IsEquality ⟦<Plain as PartialEq>⟧.eq }
    ensures contents { IsEquality ⟦<Content as PartialEq>⟧.eq }
    ensures values { IsEquality ⟦<Value as PartialEq>⟧.eq }
{}

/// `==` of faults and of their kinds is true exactly where they are equal.
pub fn equality_of_faults()
    ensures kinds { IsEquality ⟦<FaultKind as PartialEq>⟧.eq }
    ensures faults { IsEquality ⟦<Fault as PartialEq>⟧.eq }
{}

/// `==` of births, acts, replies and entries is true exactly where they are equal.
pub fn equality_of_turns()
    ensures births { IsEquality ⟦<Birth as PartialEq>⟧.eq }
    ensures acts { IsEquality ⟦<Act as PartialEq>⟧.eq }
    ensures replies { IsEquality ⟦<Reply as PartialEq>⟧.eq }
    ensures entries { IsEquality ⟦<Entry as PartialEq>⟧.eq }
{}
