//! The names of principals.
ghost use Rattle.std.specs.Prelude.{◌≡◌, ◌↔◌, ◌<◌, ◌≤◌, ◌++◌, [], ◌∷◌, length, slice_get, Contains};
ghost use Rattle.std.specs.Prelude.{IsTrue, IsNone, IfSome, IfOk, OnOk, OnErr, IsOkAnd};
ghost use Rattle.std.specs.Prelude.{MatchOption, IsOkUnless};
ghost use Rattle.lio_clauses.specs.Names as spec;
ghost use Rattle.lio_clauses.specs.Names.{AreNames, number_of};

use crate::faults::{NameFault, NoMemory};
use indexmap::IndexSet;
use std::alloc::Global;
use std::marker::Model;

/// The names of at most 64 principals. A principal's number is the place of its name, from 0.
#[derive(Drop)]
pub struct Names {
    set: IndexSet<Vec<u8>>,
}

impl Model for Names {
    ghost use Rattle.std.specs.Prelude.{List, ℕ};
    ghost use Rattle.lio_clauses.specs.Names.{AreNames, bytes_of};

    ghost Value = { List (List ℕ) };

    ghost view = { λ names. bytes_of names.set.keys };

    ghost invariant = { λ names. AreNames (bytes_of names.set.keys) };
}

/// The first place whose byte may not stand there in a name: 1 to 32 bytes of `a` to `z`, `0` to
/// `9` and `_` that begin with a letter. It is 0 for the empty name and 32 for a longer one.
pub fn name_fault(name: &[u8]) -> Option<u32>
    ensures { result ≡ spec.name_fault name.now }
{
    if name.is_empty() {
        return Some(0);
    }
    for (place, &byte) in name.iter().enumerate() {
        if !may_stand(place, byte) {
            return Some(place as u32);
        }
    }
    None
}

/// Whether a name may have the byte at this place.
fn may_stand(place: usize, byte: u8) -> bool
    ensures { result ≡ spec.may_stand place byte }
{
    place < Names::LONGEST
        && match byte {
            b'a'..=b'z' => true,
            b'0'..=b'9' | b'_' => place > 0,
            _ => false,
        }
}

impl Names {
    ghost use Rattle.lio_clauses.specs.Refusal.{refusal};

    /// How many names there may be.
    pub const MOST: usize = 64;

    /// How many bytes a name may have.
    pub const LONGEST: usize = 32;

    /// No names.
    pub fn new(alloc: Global) -> Result<Names, NoMemory>
        ensures { IsOkAnd result (λ names. names ≡ []) }
    {
        Ok(Names {
            set: IndexSet::new(alloc),
        })
    }

    /// Adds a name of 1 to 32 bytes of `a` to `z`, `0` to `9` and `_` that begins with a letter,
    /// and answers its number. After a fault the names are as before.
    pub fn add(&mut self, alloc: Global, name: &[u8]) -> Result<u32, NameFault>
        ensures number { IfOk result (λ number. number ≡ length self.old) }
        ensures added { OnOk result (self.new ≡ self.old ++ name.now ∷ []) }
        ensures unchanged { OnErr result (self.new ≡ self.old) }

        // A name that breaks a rule is refused for the first one; another is added, unless memory
        // runs out.
        ensures fault { MatchOption (refusal self.old name.now)
            (IsOkUnless result NameFault.NoMemory) (λ fault. result ≡ Err fault) }
    {
        if let Some(place) = name_fault(name) {
            return Err(NameFault::BadName(place));
        }
        if let Some(number) = self.find(name) {
            return Err(NameFault::Again(number));
        }
        if self.set.len() >= Names::MOST {
            return Err(NameFault::TooMany);
        }
        let number = self.len();
        let name = Vec::from_slice(alloc, name)?;
        self.set.insert(name)?;
        Ok(number)
    }

    /// The number of the principal with this name.
    pub fn find(&self, name: &[u8]) -> Option<u32>
        ensures number { result ≡ number_of self.now name.now }
        ensures none { IsNone result ↔ ¬ Contains self.now name.now }
        ensures found { IfSome result (λ number. slice_get self.now number ≡ Some name.now) }
        ensures small { IfSome result (λ number. number < 64) }
    {
        let place = self.set.get_index_of(name)?;
        Some(place as u32)
    }

    /// How many names there are. What they hold are names, at most 64 and distinct.
    pub fn len(&self) -> u32
        ensures len { result ≡ length self.now }
        ensures most { result ≤ 64 }
        ensures names { AreNames self.now }
    {
        self.set.len() as u32
    }

    /// Whether there are no names.
    pub fn is_empty(&self) -> bool
        ensures { IsTrue result ↔ (self.now ≡ []) }
    {
        self.set.is_empty()
    }

    /// The name of the principal with this number.
    pub fn name(&self, number: u32) -> &[u8]
        requires { number < length self.now }
        ensures { slice_get self.now number ≡ Some result.now }
    {
        self.set[number as usize].as_slice()
    }
}
