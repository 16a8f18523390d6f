//! The places of an order that may be awake, a bit each.
ghost use Rattle.std.specs.Prelude.{◌≡◌, ◌≢◌, ◌⊎◌, ℕ, ◌+◌, ◌/◌, ◌^◌, ◌<◌, ◌≤◌, length, IfSome};
ghost use Rattle.std.specs.Prelude.{IfNone};
ghost use Rattle.std.specs.Prelude.{slice_index_or};
ghost use Rattle.lio_rounds.specs.Words.{IsClear, TopsCover};

use std::alloc::Global;

/// Places by number, each awake or asleep. Those beyond the last word are awake, and so are at
/// first those of a new word: a place for whose word no memory is left stays awake.
///
/// A bit of a top stands for a word. Where it isn't set, nobody in the word is awake.
#[derive(Drop)]
pub(crate) struct Places {
    words: Vec<u64>,
    tops: Vec<u64>,
    ghost tops_cover: { TopsCover words.items tops.items },
}

impl Places {
    ghost use Rattle.lio_rounds.specs.Awake.{IsAsleep};

    /// Places that are all awake.
    pub(crate) fn new(alloc: Global) -> Places
        ensures { (place : ℕ) → ¬ IsAsleep result place }
    {
        Places {
            words: Vec::new(alloc),
            tops: Vec::new(alloc),
        }
    }

    /// The first place from this one on that is awake, or one at the end or behind it where there
    /// is none before the end.
    pub(crate) fn next(&self, from: usize, end: usize) -> usize
        requires { end < 2 ^ 31 }
        ensures from { from ≤ result }
        ensures asleep { (place : ℕ) → from ≤ place → place < result → IsAsleep self.now place }
    {
        let mut place = from;
        while place < end {
            if let Some(found) = set_in_word(self.words.as_slice(), place) {
                return found;
            }
            place = first_set(self.tops.as_slice(), place / 64 + 1, end) * 64;
        }
        place
    }

    /// Lets a place sleep, if memory for its word can be had.
    pub(crate) fn sleep(&mut self, place: usize)
        ensures { (other : ℕ) → IsAsleep self.new other → IsAsleep self.old other ⊎ (other ≡ place) }
    {
        grow(&mut self.words, place / 64 + 1);
        grow(&mut self.tops, place / 4096 + 1);
        clear(&mut self.words, place);
        if let Some(0) = self.words.get(place / 64) {
            clear(&mut self.tops, place / 64);
        }
    }

    /// Wakes a place.
    pub(crate) fn wake(&mut self, place: usize)
        ensures { (other : ℕ) → IsAsleep self.new other
            → IsAsleep self.old other × (other ≢ place) }
    {
        set(&mut self.words, place);
        set(&mut self.tops, place / 64);
    }
}

/// The first bit from this one on in its word that is set, or this bit itself where its word isn't
/// there.
fn set_in_word(words: &[u64], bit: usize) -> Option<usize>
    requires { bit < 2 ^ 32 }
    ensures few { IfSome result (λ found. found < bit + 64) }
    ensures from { IfSome result (λ found. bit ≤ found) }
    ensures clear { IfSome result (λ found. (i : ℕ) → bit ≤ i → i < found → IsClear words.now i) }
    ensures none { IfNone result
        ((i : ℕ) → bit ≤ i → i / 64 ≡ bit / 64 → IsClear words.now i) }
{
    let Some(word) = words.get(bit / 64) else {
        return Some(bit);
    };
    let rest = *word >> (bit % 64);
    if rest == 0 {
        return None;
    }
    Some(bit + rest.trailing_zeros() as usize)
}

/// The first bit from this one on that is set, or one at the end or behind it where none is set
/// before the end.
fn first_set(words: &[u64], from: usize, end: usize) -> usize
    requires end { end < 2 ^ 31 }
    requires start { from ≤ 2 ^ 31 }
    ensures few { result ≤ 2 ^ 31 + 64 }
    ensures from { from ≤ result }
    ensures clear { (i : ℕ) → from ≤ i → i < result → IsClear words.now i }
{
    let mut bit = from;
    while bit < end {
        if let Some(found) = set_in_word(words, bit) {
            return found;
        }
        bit = (bit / 64 + 1) * 64;
    }
    bit
}

/// Adds words whose bits are all set until there are so many, as far as memory for them can be had.
fn grow(words: &mut Vec<u64>, count: usize)
    ensures longer { length words.old.items ≤ length words.new.items }
    ensures same { (w : ℕ) → w < length words.old.items
        → slice_index_or words.new.items w 0 ≡ slice_index_or words.old.items w 0 }
    ensures clear { (i : ℕ) → IsClear words.new.items i → IsClear words.old.items i }
{
    while words.len() < count {
        if words.try_reserve(1).is_err() {
            return;
        }
        words.push_reserved(u64::MAX);
    }
}

/// Sets a bit, where its word is there.
fn set(words: &mut Vec<u64>, bit: usize)
    ensures length { length words.new.items ≡ length words.old.items }
    ensures same { (w : ℕ) → w ≢ bit / 64
        → slice_index_or words.new.items w 0 ≡ slice_index_or words.old.items w 0 }
    ensures clear { (i : ℕ) → IsClear words.new.items i
        → IsClear words.old.items i × (i ≢ bit) }
{
    if let Some(word) = words.get_mut(bit / 64) {
        *word |= 1 << (bit % 64);
    }
}

/// Clears a bit, where its word is there.
fn clear(words: &mut Vec<u64>, bit: usize)
    ensures length { length words.new.items ≡ length words.old.items }
    ensures zero { (w : ℕ) → slice_index_or words.old.items w 0 ≡ 0
        → slice_index_or words.new.items w 0 ≡ 0 }
    ensures clear { (i : ℕ) → IsClear words.new.items i
        → IsClear words.old.items i ⊎ (i ≡ bit) }
{
    if let Some(word) = words.get_mut(bit / 64) {
        *word &= !(1 << (bit % 64));
    }
}
