//! A gate that notes of which turns it is told, and at which the first worker may be held.

use lio_workers::Gate;
use std::sync::atomic::{AtomicU64, Ordering};
use std::thread;

/// A gate that notes of which of the first 64 tickets and of the first 64 tasks it is told, and how
/// often it is told of a turn. Who comes first stops at it until another comes, but for so many
/// looks at most.
#[derive(Drop)]
pub(crate) struct NotingGate {
    looks: u64,
    turns: AtomicU64,
    tickets: AtomicU64,
    tasks: AtomicU64,
    gave_up: AtomicU64,
}

impl NotingGate {
    /// A gate that was told of nothing.
    pub fn new(looks: u64) -> NotingGate {
        NotingGate {
            looks,
            turns: AtomicU64::new(0),
            tickets: AtomicU64::new(0),
            tasks: AtomicU64::new(0),
            gave_up: AtomicU64::new(0),
        }
    }

    /// How often it was told of a turn.
    pub fn turns(&self) -> u64 {
        self.turns.load(Ordering::SeqCst)
    }

    /// Whether it was told of each ticket below that number, up to 63.
    pub fn has_each(&self) -> bool {
        let below = (1u64 << (self.turns() % 64)).wrapping_sub(1);
        self.tickets.load(Ordering::SeqCst) == below
    }

    /// Whether it was told of a turn of this task.
    pub fn has_task(&self, k: u32) -> bool {
        self.tasks.load(Ordering::SeqCst) >> (k % 64) & 1 == 1
    }

    /// Whether who came first went on before another came.
    pub fn gave_up(&self) -> bool {
        self.gave_up.load(Ordering::SeqCst) > 0
    }

    /// Stops who came first.
    fn hold(&self) {
        for look in 0..self.looks {
            if self.turns() > 1 {
                return;
            }
            if look % 1_024 == 0 {
                thread::yield_now();
            }
        }
        self.gave_up.store(1, Ordering::SeqCst);
    }
}

impl Gate for NotingGate {
    fn pass(&self, k: u32, ticket: u64) {
        let before = self.turns.fetch_add(1, Ordering::SeqCst);
        self.tickets
            .fetch_or(1u64 << (ticket % 64), Ordering::SeqCst);
        self.tasks.fetch_or(1u64 << (k % 64), Ordering::SeqCst);
        if before == 0 && self.looks > 0 {
            self.hold();
        }
    }
}
