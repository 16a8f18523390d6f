//! Texts: lists of bytes.

ghost use Rattle.std.specs.Prelude.{◌≡◌, ◌+◌, ◌++◌, ◌↔◌, ◌≤◌, ◌<◌, length, IfOk, IsOk, IsTrue};
ghost use Rattle.std.specs.Prelude.{nat_eq};
ghost use Rattle.std.specs.Cmp.{nat_eq_equiv, partial_equiv_from_equiv};
ghost use Rattle.std.specs.Cmp.Lexicographic.{pointwise, lists_equiv};

use lio_clauses::NoMemory;
use std::alloc::Global;
use std::marker::Model;
use std::sync::Arc;

/// How many bytes of a text may lie in place.
const IN_PLACE: usize = 24;

/// Where the bytes of a text lie.
#[derive(Debug, Drop)]
enum Kept {
    /// In place: so many first bytes of the array. The number stands before it, so that both are
    /// copied in whole words.
    Here(u32, [u8; 24]),
    /// Bytes that copies share.
    Shared(Arc<Vec<u8>>),
}

/// A list of bytes. One of at most 24 bytes takes no memory, and a longer one shares its bytes with
/// its copies.
#[derive(Debug, Drop)]
pub struct Text {
    kept: Kept,
}

impl Model for Text {
    ghost use Rattle.std.specs.Prelude.{List, ℕ};
    ghost use Rattle.lio_values.specs.Kept.{bytes_of, IsKept};

    ghost Value = { List ℕ };

    ghost view = { λ text. bytes_of text.kept };

    ghost invariant = { λ text. IsKept text.kept };
}

impl Text {
    /// A text with these bytes.
    pub fn of(alloc: Global, bytes: &[u8]) -> Result<Text, NoMemory>
        ensures ok { IfOk result (λ text. text ≡ bytes.now) }
        ensures takes_no_memory { length bytes.now ≤ 24 → IsOk result }
    {
        if bytes.len() <= IN_PLACE {
            return Ok(Text::here(bytes, &[]));
        }
        Text::shared(alloc, Vec::from_slice(alloc, bytes)?)
    }

    /// A text with these bytes.
    pub fn of_vec(alloc: Global, bytes: Vec<u8>) -> Result<Text, NoMemory>
        ensures ok { IfOk result (λ text. text ≡ bytes.items) }
        ensures takes_no_memory { length bytes.items ≤ 24 → IsOk result }
    {
        if bytes.len() <= IN_PLACE {
            return Ok(Text::here(bytes.as_slice(), &[]));
        }
        Text::shared(alloc, bytes)
    }

    /// A text with the one bytes and then the others.
    pub fn joined(alloc: Global, a: &[u8], b: &[u8]) -> Result<Text, NoMemory>
        ensures ok { IfOk result (λ text. text ≡ a.now ++ b.now) }
        ensures takes_no_memory { length a.now + length b.now ≤ 24 → IsOk result }
    {
        let count = a.len() + b.len();
        if count <= IN_PLACE {
            return Ok(Text::here(a, b));
        }
        let mut bytes = Vec::with_capacity(alloc, count)?;
        bytes.extend_from_slice(a)?;
        bytes.extend_from_slice(b)?;
        Text::shared(alloc, bytes)
    }

    /// Its bytes.
    pub fn bytes(&self) -> &[u8]
        ensures { result.now ≡ self.now }
    {
        match &self.kept {
            Kept::Here(count, bytes) => &bytes[..*count as usize],
            Kept::Shared(shared) => shared.as_slice(),
        }
    }

    /// An equal text.
    pub fn copy(&self, _alloc: Global) -> Result<Text, NoMemory>
        ensures ok { IfOk result (λ text. text ≡ self.now) }
        ensures takes_no_memory { length self.now ≤ 24 → IsOk result }
    {
        let kept = match &self.kept {
            Kept::Here(count, bytes) => Kept::Here(*count, *bytes),
            Kept::Shared(shared) => Kept::Shared(Arc::try_clone(shared)?),
        };
        Ok(Text { kept })
    }

    /// A text that lies in place: the one bytes and then the others.
    fn here(a: &[u8], b: &[u8]) -> Text
        requires { length a.now + length b.now ≤ 24 }
        ensures { result ≡ a.now ++ b.now }
    {
        let count = a.len() + b.len();
        let mut bytes = [0; 24];
        bytes[..a.len()].copy_from_slice(a);
        bytes[a.len()..count].copy_from_slice(b);
        Text {
            kept: Kept::Here(count as u32, bytes),
        }
    }

    /// A text whose copies share its bytes.
    fn shared(alloc: Global, bytes: Vec<u8>) -> Result<Text, NoMemory>
        requires { 24 < length bytes.items }
        ensures { IfOk result (λ text. text ≡ bytes.items) }
    {
        Ok(Text {
            kept: Kept::Shared(Arc::new(alloc, bytes)?),
        })
    }
}

impl PartialEq for Text {
    ghost eq = { pointwise nat_eq };

    ghost laws = { partial_equiv_from_equiv (lists_equiv nat_eq_equiv) };

    fn eq(&self, other: &Text) -> bool
        ensures test { result ≡ pointwise nat_eq self.now other.now }
        ensures same { IsTrue result ↔ (self.now ≡ other.now) }
    {
        self.bytes() == other.bytes()
    }
}

impl Eq for Text {
    ghost laws = { lists_equiv nat_eq_equiv };
}
