//! Lists of values.
ghost use Rattle.std.specs.Prelude.{◌≡◌, ◌++◌, ◌<◌, [], ◌∷◌, All, IfOk, OnErr, OnOk};

use crate::list::List;
use crate::value::Value;
use lio_clauses::NoMemory;
use lio_labels::Label;
use std::alloc::Global;
use std::marker::Model;

/// A list of values, of depth at most 8.
#[cycle(value)]
#[derive(Drop)]
pub struct Items {
    pub(crate) values: List<Value>,
}

impl Model for Items {
    ghost use Rattle.std.specs.Prelude.{◌<◌};
    ghost use Rattle.lio_values.specs.Forest.{Forest, deepest, forest_height};

    ghost Value = { Forest };

    ghost use Rattle.lio_values.specs.ForestCode.{forest_code};

    ghost coded = { forest_code };

    ghost use Rattle.lio_values.specs.Views.{forest_of};

    ghost view = { λ items. forest_of items.values };

    ghost invariant = { λ items. deepest (forest_of items.values) < 8 };

    ghost size = { forest_height };

    ghost use Rattle.lio_values.specs.Falls.{falls};

    ghost size_decreases = { λ items h. falls items.values };
}

impl Items {
    ghost use Rattle.lio_values.specs.Forest.{item_depth, Nothing};
    ghost use Rattle.lio_values.specs.Erasure.{erase_forest};
    ghost use Rattle.lio_values.specs.Views.{item_of, forest_of, values_of};

    /// The empty list.
    pub fn new(alloc: Global) -> Items
        ensures { result ≡ Nothing }
    {
        Items {
            values: List::new(alloc),
        }
    }

    /// A list of these values.
    pub fn of(alloc: Global, values: &[Value]) -> Result<Items, NoMemory>
        requires { All (λ value. item_depth (item_of value) < 8) values.now }
        ensures { IfOk result (λ items. items ≡ forest_of values.now) }
    {
        let mut items = Items::new(alloc);
        for value in values {
            items.push(value.copy(alloc)?)?;
        }
        Ok(items)
    }

    /// The items in order.
    pub fn as_slice(&self) -> &[Value]
        ensures items { result.now ≡ values_of self.now }
        ensures shallow { All (λ value. item_depth (item_of value) < 8) result.now }
    {
        self.values.as_slice()
    }

    /// Puts a value last. After a refusal the list is as before.
    pub fn push(&mut self, value: Value) -> Result<(), NoMemory>
        requires { item_depth (item_of value) < 8 }
        ensures ok { OnOk result
            (self.new ≡ forest_of (values_of self.old ++ value ∷ [])) }
        ensures err { OnErr result (self.new ≡ self.old) }
    {
        self.values.push(value)
    }

    /// An equal list.
    #[cycle(copy)]
    pub fn copy(&self, alloc: Global) -> Result<Items, NoMemory>
        ensures { IfOk result (λ items. items ≡ self.now) }
    {
        let mut values = List::new(alloc);
        for value in self.values.as_slice() {
            values.push(value.copy(alloc)?)?;
        }
        Ok(Items { values })
    }

    /// The list as an observer sees it: each item is erased.
    #[cycle(erase)]
    pub(crate) fn erase(&self, alloc: Global, observer: &Label) -> Result<Items, NoMemory>
        ensures { IfOk result (λ items. items ≡ erase_forest observer.now self.now) }
    {
        let mut values = List::new(alloc);
        for value in self.values.as_slice() {
            values.push(value.erase(alloc, observer)?)?;
        }
        Ok(Items { values })
    }
}

impl PartialEq for Items {
    ghost use Rattle.std.specs.Cmp.{partial_equiv_from_equiv};
    ghost use Rattle.lio_values.specs.SameForest.{same_forest, same_forests};

    ghost eq = { same_forest };

    ghost laws = { partial_equiv_from_equiv same_forests };

    #[cycle(value)]
    fn eq(&self, other: &Items) -> bool {
        let values = self.values.as_slice();
        let others = other.values.as_slice();
        if values.len() != others.len() {
            return false;
        }
        for place in 0..values.len() {
            let same = values[place] == others[place];
            if !same {
                return false;
            }
        }
        true
    }
}

impl Eq for Items {
    ghost use Rattle.lio_values.specs.SameForest.{same_forests};

    ghost laws = { same_forests };
}
