//! How deep and how large values are, how many sealed values they have, and which are pure. Where a
//! count doesn't fit into 64 bits it is the greatest number.

ghost use Rattle.std.specs.Prelude.{◌≡◌, ◌<◌, ◌≤◌, ◌^◌, ◌-◌, length, min};
ghost use Rattle.lio_values.specs.Forest.{tree_depth, deepest};
ghost use Rattle.lio_values.specs.Views.{tree_of, item_of};
ghost use Rattle.lio_values.specs.Measures.{label_size, tree_size, items_size, tree_seals};
ghost use Rattle.lio_values.specs.Measures.{items_seals, items_are_pure, value_depth, value_size};
ghost use Rattle.lio_values.specs.Measures.{value_seals, item_is_pure, is_pure};

use crate::items::Items;
use crate::value::{Plain, Value};
use lio_clauses::Formula;
use lio_labels::Label;

/// The number of a formula's clauses.
fn clauses(formula: &Formula) -> u64
    ensures count { result ≡ length formula.now }
    ensures few { result ≤ 64 }
{
    formula.clauses().len() as u64
}

/// The size of what keeps a label.
fn label_size(label: &Label) -> u64
    ensures size { result ≡ label_size label.now }
    ensures fits { result < 2 ^ 16 }
{
    8 * (clauses(&label.secrecy) + clauses(&label.integrity)) + 1
}

impl Plain {
    /// How deep it is: 0, and a list one more than the deepest of its items.
    #[cycle(depth)]
    pub fn depth(&self) -> u64
        ensures depth { result ≡ tree_depth (tree_of self.now) }
        ensures bound { result ≤ 8 }
    {
        match self {
            Plain::Items(items) => items.deepest() + 1,
            _ => 0,
        }
    }

    /// Its size: 1, of a text 1 and its bytes, of a label or a privilege 1 and 8 for each clause,
    /// of a handle that of its label, and of a list 1 and the sizes of its items.
    #[cycle(size)]
    pub fn size(&self) -> u64
        ensures { result ≡ min (tree_size (tree_of self.now)) (2 ^ 64 - 1) }
    {
        match self {
            Plain::Unit | Plain::Flag(_) | Plain::Whole(_) => 1,
            Plain::Bytes(text) => text.bytes().len() as u64 + 1,
            Plain::Lab(label) => label_size(label),
            Plain::Power(privilege) => 8 * clauses(&privilege.power) + 1,
            Plain::RefOf(handle) => label_size(&handle.label),
            Plain::VarOf(handle) => label_size(&handle.label),
            Plain::ResultOf(handle) => label_size(&handle.label),
            Plain::ChanOf(handle) => label_size(&handle.label),
            Plain::Items(items) => items.size().saturating_add(1),
        }
    }

    /// How many sealed values it has, at every depth of a list.
    #[cycle(seals)]
    pub fn seals(&self) -> u64
        ensures { result ≡ min (tree_seals (tree_of self.now)) (2 ^ 64 - 1) }
    {
        match self {
            Plain::Items(items) => items.seals(),
            _ => 0,
        }
    }

    /// Whether it is pure: if it is a list, each item is pure, and so bare.
    #[cycle(is_pure)]
    pub fn is_pure(&self) -> bool
        ensures { result ≡ is_pure self.now }
    {
        match self {
            Plain::Items(items) => items.are_pure(),
            _ => true,
        }
    }
}

impl Value {
    /// How deep it is: a sealed value has depth 0.
    #[cycle(depth)]
    pub fn depth(&self) -> u64
        ensures depth { result ≡ value_depth self.now }
        ensures bound { result ≤ 8 }
    {
        match self {
            Value::Bare(plain) => plain.depth(),
            Value::Sealed(_, _) => 0,
        }
    }

    /// Its size: a sealed value has the size of its label.
    #[cycle(size)]
    pub fn size(&self) -> u64
        ensures { result ≡ min (value_size self.now) (2 ^ 64 - 1) }
    {
        match self {
            Value::Bare(plain) => plain.size(),
            Value::Sealed(label, _) => label_size(label),
        }
    }

    /// How many sealed values it is or has, at every depth of a list.
    #[cycle(seals)]
    pub fn seals(&self) -> u64
        ensures { result ≡ min (value_seals self.now) (2 ^ 64 - 1) }
    {
        match self {
            Value::Bare(plain) => plain.seals(),
            Value::Sealed(_, _) => 1,
        }
    }

    /// Whether it is pure: bare, and if it is a list, each item is pure.
    #[cycle(is_pure)]
    pub fn is_pure(&self) -> bool
        ensures { result ≡ item_is_pure (item_of self.now) }
    {
        match self {
            Value::Bare(plain) => plain.is_pure(),
            Value::Sealed(_, _) => false,
        }
    }
}

impl Items {
    /// How deep its deepest item is.
    #[cycle(depth)]
    pub fn deepest(&self) -> u64
        ensures depth { result ≡ deepest self.now }
        ensures bound { result < 8 }
    {
        let mut deepest = 0;
        for value in self.values.as_slice() {
            deepest = value.depth().max(deepest);
        }
        deepest
    }

    /// The sizes of its items together.
    #[cycle(size)]
    pub fn size(&self) -> u64
        ensures { result ≡ min (items_size self.now) (2 ^ 64 - 1) }
    {
        let mut size = 0u64;
        for value in self.values.as_slice() {
            size = size.saturating_add(value.size());
        }
        size
    }

    /// How many sealed values its items are or have.
    #[cycle(seals)]
    pub fn seals(&self) -> u64
        ensures { result ≡ min (items_seals self.now) (2 ^ 64 - 1) }
    {
        let mut seals = 0u64;
        for value in self.values.as_slice() {
            seals = seals.saturating_add(value.seals());
        }
        seals
    }

    /// Whether each item is pure.
    #[cycle(is_pure)]
    pub fn are_pure(&self) -> bool
        ensures { result ≡ items_are_pure self.now }
    {
        let mut pure = true;
        for value in self.values.as_slice() {
            if !value.is_pure() {
                pure = false;
            }
        }
        pure
    }
}
