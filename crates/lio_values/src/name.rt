//! Names.
#![tactic(auto, unfolding(crate::specs::Names::key_of))]

ghost use Rattle.std.specs.Prelude.{◌≡◌, ◌≤◌, ◌<◌, ◌↔◌, bytes_eq, get_or, length, IfOk, IsOk};
ghost use Rattle.std.specs.Prelude.{IsTrue};
ghost use Rattle.lio_values.specs.Names.{digit, key_of};

use crate::text::Text;
use lio_clauses::NoMemory;
use std::alloc::Global;
use std::marker::Model;

/// The least key of a name of more than seven bytes.
const LONG: u64 = 8 << 56;

/// A name of a script, seen as its bytes. Beside them it keeps what makes it quick to tell from
/// others, and a guess of where to look for it.
#[derive(Debug, Drop)]
pub struct Name {
    text: Text,
    /// Its length and its first seven bytes. Shorter names have other keys.
    key: u64,
    /// Its place among the names of its procedure, in their order. Nothing depends on it.
    rank: u32,
}

impl Model for Name {
    ghost use Rattle.std.specs.Prelude.{◌≡◌, List, ℕ};
    ghost use Rattle.lio_values.specs.Names.{AreBytes, key_of};

    ghost Value = { List ℕ };

    ghost view = { λ name. name.text };

    ghost invariant = { λ name. AreBytes name.text × (name.key ≡ key_of name.text) };
}

/// The byte at a place, or 0 behind the last one.
fn digit(bytes: &[u8], place: usize) -> u64
    ensures digit { result ≡ digit bytes.now place }
    ensures byte { result < 256 }
{
    match bytes.get(place) {
        Some(byte) => u64::from(*byte),
        None => 0,
    }
}

/// The length, at most 255, and the first seven bytes, as the digits of a number to the base 256.
fn key_of(bytes: &[u8]) -> u64
    ensures { result ≡ key_of bytes.now }
{
    let mut key = bytes.len().min(255) as u64;
    key = key * 256 + digit(bytes, 0);
    key = key * 256 + digit(bytes, 1);
    key = key * 256 + digit(bytes, 2);
    key = key * 256 + digit(bytes, 3);
    key = key * 256 + digit(bytes, 4);
    key = key * 256 + digit(bytes, 5);
    key * 256 + digit(bytes, 6)
}

impl Name {
    /// A name with these bytes.
    pub fn of(alloc: Global, bytes: &[u8]) -> Result<Name, NoMemory>
        ensures ok { IfOk result (λ name. name ≡ bytes.now) }
        ensures takes_no_memory { length bytes.now ≤ 24 → IsOk result }
    {
        let text = Text::of(alloc, bytes)?;
        Ok(Name {
            text,
            key: key_of(bytes),
            rank: 0,
        })
    }

    /// Its bytes.
    pub fn bytes(&self) -> &[u8]
        ensures { result.now ≡ self.now }
    {
        self.text.bytes()
    }

    /// An equal name.
    pub fn copy(&self, alloc: Global) -> Result<Name, NoMemory>
        ensures ok { IfOk result (λ name. name ≡ self.now) }
        ensures takes_no_memory { length self.now ≤ 24 → IsOk result }
    {
        let text = self.text.copy(alloc)?;
        Ok(Name {
            text,
            key: self.key,
            rank: self.rank,
        })
    }

    /// Whether the other is the same name.
    #[inline(always)]
    pub fn is(&self, other: &Name) -> bool
        ensures { result ≡ bytes_eq self.now other.now }
    {
        self.key == other.key && (self.key < LONG || self.bytes() == other.bytes())
    }

    /// Its place among the names of its procedure, as it was last set.
    pub fn rank(&self) -> usize {
        self.rank as usize
    }

    /// Sets its place among the names of its procedure.
    pub fn set_rank(&mut self, rank: u32)
        ensures { self.new ≡ self.old }
    {
        self.rank = rank;
    }
}
