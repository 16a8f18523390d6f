//! What names are bound to.
ghost use Rattle.std.specs.Prelude.{◌≡◌, [], length, IfOk, IsOk, OnOk, OnErr, MatchOption};
ghost use Rattle.std.specs.Prelude.{MatchResult, None};
ghost use Rattle.std.specs.Option.{option_copied};
ghost use Rattle.lio_values.specs.declared.value.Value.TheVariants.{Bare};
ghost use Rattle.lio_values.specs.Small.{plain_of};
ghost use Rattle.lio_syntax.specs.Environment.{bind, bind_all, value_of};
ghost use Rattle.lio_task_control.specs.Bound.{IsBoundAt, IsBoundBefore};
ghost use Rattle.lio_syntax.specs.Hiding.{hide_environment};

use lio_clauses::{NoMemory, assign, beside};
use lio_labels::Label;
use lio_syntax::Binding;
use lio_values::{Name, Plain, Small, Value};
use std::alloc::Global;
use std::marker::Model;

/// What names are bound to, seen as the list of the bindings in the order of names.
#[derive(Drop)]
pub struct Environment {
    bindings: Vec<Binding>,
}

impl Model for Environment {
    ghost use Rattle.std.specs.Prelude.{List};
    ghost use Rattle.lio_syntax.specs.declared.binding.Binding.{Binding};
    ghost use Rattle.lio_task_control.specs.Bound.{AreInOrder};
    ghost use Rattle.lio_syntax.specs.contracts.binding.Binding as binding;
    ghost use Rattle.std.specs.Coded.{coded_list};

    ghost Value = { List Binding };

    ghost coded = { coded_list binding.the_row.coded };

    ghost view = { λ environment. environment.bindings.items };

    ghost invariant = { λ environment. AreInOrder environment.bindings.items };
}

/// Puts a small value into the place of a value. A number or a truth value over one of its kind is
/// one store.
#[inline(always)]
fn put(place: &mut Value, value: Small)
    ensures { place.new ≡ Bare (plain_of value) }
{
    match value {
        Small::Whole(number) => {
            if let Value::Bare(Plain::Whole(old)) = place {
                *old = number;
                return;
            }
        }
        Small::Flag(flag) => {
            if let Value::Bare(Plain::Flag(old)) = place {
                *old = flag;
                return;
            }
        }
        Small::Unit => {}
    }
    replace(place, value);
}

/// Puts a small value into the place of a value, and lets go what was there.
#[inline(never)]
fn replace(place: &mut Value, value: Small)
    ensures { place.new ≡ Bare (plain_of value) }
{
    assign(place, Value::Bare(value.plain()));
}

impl Environment {
    /// Nothing is bound.
    pub fn new(alloc: Global) -> Environment
        ensures { result ≡ [] }
    {
        Environment {
            bindings: Vec::new(alloc),
        }
    }

    /// The names bound to the values, as a procedure's parameters to its arguments: the later over
    /// the earlier.
    pub fn of(alloc: Global, names: &[Name], values: &[Value]) -> Result<Environment, NoMemory>
        ensures { IfOk result (λ environment. environment ≡ bind_all [] names.now values.now) }
    {
        let mut environment = Environment::new(alloc);
        for i in 0..names.len().min(values.len()) {
            environment.bind(alloc, &names[i], values[i].copy(alloc)?)?;
        }
        Ok(environment)
    }

    /// What a name is bound to.
    #[inline(always)]
    pub fn get(&self, name: &Name) -> Option<&Value>
        ensures { option_copied result ≡ value_of self.now name.now }
    {
        match self.place_of(name) {
            Some(place) => Some(&self.bindings[place].value),
            None => None,
        }
    }

    /// Binds a name to a value, and leaves each other name as it is. Where the name is bound
    /// already its value is replaced in place, and no memory is taken.
    pub fn bind(&mut self, alloc: Global, name: &Name, value: Value) -> Result<(), NoMemory>
        ensures ok { OnOk result (self.new ≡ bind self.old name.now value) }
        ensures err { OnErr result (self.new ≡ self.old) }
        ensures in_place { length (bind self.old name.now value) ≡ length self.old → IsOk result }
    {
        match self.place_of(name) {
            Some(place) => {
                assign(&mut self.bindings[place].value, value);
                Ok(())
            }
            None => self.add(alloc, name, value),
        }
    }

    /// Binds a name to a small value, as `bind` does. A number or a truth value over one of its
    /// kind is one store.
    #[inline(always)]
    pub fn set(&mut self, alloc: Global, name: &Name, value: Small) -> Result<(), NoMemory>
        ensures ok { OnOk result (self.new ≡ bind self.old name.now (Bare (plain_of value))) }
        ensures err { OnErr result (self.new ≡ self.old) }
        ensures in_place { length (bind self.old name.now (Bare (plain_of value))) ≡ length self.old
            → IsOk result }
    {
        match self.place_of(name) {
            Some(place) => {
                put(&mut self.bindings[place].value, value);
                Ok(())
            }
            None => self.add(alloc, name, Value::Bare(value.plain())),
        }
    }

    /// Binds a name that isn't bound.
    fn add(&mut self, alloc: Global, name: &Name, value: Value) -> Result<(), NoMemory>
        requires { value_of self.old name.now ≡ None }
        ensures ok { OnOk result (self.new ≡ bind self.old name.now value) }
        ensures err { OnErr result (self.new ≡ self.old) }
        ensures in_place { length (bind self.old name.now value) ≡ length self.old → IsOk result }
    {
        let place = self.place_before(name);
        let (value, name) = beside(value, name.copy(alloc))?;
        Ok(self.bindings.insert(place, Binding { name, value })?)
    }

    /// Where a name is bound, if it is. It is looked for first at the place that its rank is.
    #[inline(always)]
    fn place_of(&self, name: &Name) -> Option<usize>
        ensures { MatchOption result
            (value_of self.now name.now ≡ None) (IsBoundAt self.now name.now) }
    {
        let rank = name.rank();
        if rank < self.bindings.len() && self.bindings[rank].name.is(name) {
            Some(rank)
        } else {
            self.search(name).ok()
        }
    }

    /// Where a name is bound or, if it isn't, where it is to be, in as many steps as halve the
    /// bindings.
    #[inline(never)]
    fn search(&self, name: &Name) -> Result<usize, usize>
        ensures { MatchResult result (IsBoundAt self.now name.now)
            (λ place. (value_of self.now name.now ≡ None)
            × IsBoundBefore self.now name.now place) }
    {
        self.bindings
            .binary_search_by(|binding| binding.name.bytes().cmp(name.bytes()))
    }

    /// Where a name that isn't bound is to be.
    fn place_before(&self, name: &Name) -> usize
        requires { value_of self.now name.now ≡ None }
        ensures { IsBoundBefore self.now name.now result }
    {
        match self.search(name) {
            Ok(_) => unreachable!(),
            Err(place) => place,
        }
    }

    /// Binds two names, one after the other, or neither.
    pub(crate) fn bind_two(
        &mut self,
        alloc: Global,
        first: &Name,
        value: Value,
        second: &Name,
        other: Value,
    ) -> Result<(), NoMemory>
        ensures ok { OnOk result (self.new
            ≡ bind (bind self.old first.now value) second.now other) }
        ensures err { OnErr result (self.new ≡ self.old) }
    {
        match (self.place_of(first), self.place_of(second)) {
            (Some(place), Some(behind)) => {
                assign(&mut self.bindings[place].value, value);
                assign(&mut self.bindings[behind].value, other);
                Ok(())
            }
            _ => self.bind_two_in_copy(alloc, first, value, second, other),
        }
    }

    /// Binds two names, one after the other, in a copy that takes its place.
    fn bind_two_in_copy(
        &mut self,
        alloc: Global,
        first: &Name,
        value: Value,
        second: &Name,
        other: Value,
    ) -> Result<(), NoMemory>
        ensures ok { OnOk result (self.new
            ≡ bind (bind self.old first.now value) second.now other) }
        ensures err { OnErr result (self.new ≡ self.old) }
    {
        let (other, mut environment) = beside(other, self.binding(alloc, first, value))?;
        environment.bind(alloc, second, other)?;
        *self = environment;
        Ok(())
    }

    /// A copy in which a name is bound to a value.
    fn binding(&self, alloc: Global, name: &Name, value: Value) -> Result<Environment, NoMemory>
        ensures { IfOk result (λ environment. environment ≡ bind self.now name.now value) }
    {
        let (value, mut environment) = beside(value, self.copy(alloc))?;
        environment.bind(alloc, name, value)?;
        Ok(environment)
    }

    /// Forgets all bindings.
    pub(crate) fn clear(&mut self)
        ensures { self.new ≡ [] }
    {
        self.bindings.clear();
    }

    /// An equal environment.
    pub fn copy(&self, alloc: Global) -> Result<Environment, NoMemory>
        ensures { IfOk result (λ environment. environment ≡ self.now) }
    {
        let mut bindings = Vec::new(alloc);
        for binding in &self.bindings {
            bindings.push(binding.copy(alloc)?)?;
        }
        Ok(Environment { bindings })
    }

    /// The environment as an observer sees it: its values are erased.
    pub(crate) fn erase(&self, alloc: Global, observer: &Label) -> Result<Environment, NoMemory>
        ensures { IfOk result
            (λ environment. environment ≡ hide_environment observer.now self.now) }
    {
        let mut bindings = Vec::new(alloc);
        for binding in &self.bindings {
            bindings.push(binding.erase(alloc, observer)?)?;
        }
        Ok(Environment { bindings })
    }
}
