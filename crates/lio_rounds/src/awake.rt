//! Who of an order is asked in a round: a place whose task can't take a turn sleeps until a turn
//! meets the node that the task waits for, and for ever where the task has ended.
ghost use Rattle.std.specs.Prelude.{◌≡◌, ◌≢◌, ◌⊎◌, ℕ, ◌^◌, ◌<◌, ◌≤◌, IsTrue, Some};
ghost use Rattle.lio_rounds.specs.Awake.{IsAsleep, IsNoted, Lists, Meets, Waits};

use crate::places::Places;
use lio_task::ended_in;
use lio_values::Entry;
use std::alloc::Global;

/// The places that are awake, and for each node, by number, the places that wait for it.
#[derive(Drop)]
pub(crate) struct Awake {
    places: Places,
    waiting: Vec<Vec<u32>>,
}

impl Awake {
    /// All places are awake.
    pub(crate) fn new(alloc: Global) -> Awake
        ensures { (place : ℕ) → ¬ IsAsleep result.places place }
    {
        Awake {
            places: Places::new(alloc),
            waiting: Vec::new(alloc),
        }
    }

    /// The first place from this one on that is awake, or one at the end or behind it where there
    /// is none before the end.
    pub(crate) fn next(&self, from: usize, end: usize) -> usize
        requires { end < 2 ^ 31 }
        ensures from { from ≤ result }
        ensures asleep { (place : ℕ) → from ≤ place → place < result
            → IsAsleep self.now.places place }
    {
        self.places.next(from, end)
    }

    /// Lets a place sleep until a node is met, or for ever where there is no node to meet. Where no
    /// memory is left to note the place, it stays awake.
    pub(crate) fn rest(&mut self, alloc: Global, place: u32, node: Option<u32>)
        ensures asleep { (other : ℕ) → IsAsleep self.new.places other
            → IsAsleep self.old.places other
            ⊎ ((other ≡ place) × IsNoted self.new.waiting.items node place) }
        ensures waiting { (n i : ℕ) → Waits self.old.waiting.items n i
            → Waits self.new.waiting.items n i }
    {
        if note(&mut self.waiting, alloc, place, node) {
            self.places.sleep(place as usize);
        }
    }

    /// Wakes the places that wait for a node.
    fn wake(&mut self, node: Option<u32>)
        ensures asleep { (place : ℕ) → IsAsleep self.new.places place
            → IsAsleep self.old.places place
            × ((n : ℕ) → node ≡ Some n → ¬ Waits self.old.waiting.items n place) }
        ensures waiting { (n place : ℕ) → node ≢ Some n → Waits self.old.waiting.items n place
            → Waits self.new.waiting.items n place }
    {
        let Some(node) = node else {
            return;
        };
        let Some(list) = self.waiting.get_mut(node as usize) else {
            return;
        };
        wake_all(&mut self.places, list);
    }

    /// Wakes who waits for a node that a turn met, or for the end of a task that it ended.
    pub(crate) fn wake_met(&mut self, entry: &Entry)
        ensures asleep { (place : ℕ) → IsAsleep self.new.places place
            → IsAsleep self.old.places place
            × ((n : ℕ) → Meets entry.now n → ¬ Waits self.old.waiting.items n place) }
        ensures waiting { (n place : ℕ) → ¬ Meets entry.now n
            → Waits self.old.waiting.items n place → Waits self.new.waiting.items n place }
    {
        self.wake(entry.target);
        self.wake(ended_in(entry));
    }
}

/// Notes that a place waits for a node, if there is one, and tells whether memory for that was
/// left.
fn note(waiting: &mut Vec<Vec<u32>>, alloc: Global, place: u32, node: Option<u32>) -> bool
    ensures noted { IsTrue result → IsNoted waiting.new.items node place }
    ensures waiting { (n i : ℕ) → Waits waiting.old.items n i → Waits waiting.new.items n i }
{
    match node {
        Some(node) => note_at(waiting, alloc, place, node),
        None => true,
    }
}

/// Notes that a place waits for a node, and tells whether memory for that was left.
fn note_at(waiting: &mut Vec<Vec<u32>>, alloc: Global, place: u32, node: u32) -> bool
    ensures noted { IsTrue result → Waits waiting.new.items node place }
    ensures waiting { (n i : ℕ) → Waits waiting.old.items n i → Waits waiting.new.items n i }
{
    while waiting.len() <= node as usize {
        if waiting.try_reserve(1).is_err() {
            return false;
        }
        waiting.push_reserved(Vec::new(alloc));
    }
    waiting[node as usize].push(place).is_ok()
}

/// Wakes the places of a list, and takes them from it.
fn wake_all(places: &mut Places, list: &mut Vec<u32>)
    ensures { (place : ℕ) → IsAsleep places.new place → IsAsleep places.old place
        × (¬ Lists list.old.items place) }
{
    while let Some(place) = list.pop() {
        places.wake(place as usize);
    }
}
