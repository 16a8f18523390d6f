//! The passes of a queue, by which threads push and pop.
ghost use Rattle.std.specs.Prelude.{◌≡◌};
ghost use Rattle.lio_runq.specs.Passes.{left_of};

use crate::rule::{Bound, PassView};
use crossbeam_queue::SegPass;
use std::alloc::Global;
use std::marker::PhantomData;

/// A right to push some numbers into a queue and to pop any, and how many of both were made by it.
#[derive(Drop)]
pub struct RunPass<B: Bound> {
    pub(crate) seat: SegPass<u32, PassView, Global>,
    pub(crate) left: u64,
    pub(crate) of: PhantomData<B>,
    ghost counted: { left ≡ left_of seat },
}

impl<B: Bound> RunPass<B> {
    /// How many pushes it has left.
    pub fn pushes_left(&self) -> u64
        ensures { result ≡ left_of self.now.seat }
    {
        self.left
    }
}
