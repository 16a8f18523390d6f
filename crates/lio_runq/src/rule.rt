//! The rule of a queue: what it holds, and what its passes have done.
ghost use Rattle.std.specs.Prelude.{ℕ, ◌^◌, []};
ghost use Rattle.lio_runq.specs.Rule.{EmptyTells, IsQueueOf, Pops, Pushes, pass_of};

use crossbeam_queue::protocol::{Lesson, Outcome, Protocol, Split};
use std::collections::LinkedList;
use std::marker::{Brand, PhantomData};

/// The number below which all numbers of a queue are.
pub trait Bound {
    ghost bound: { ℕ };
}

impl Bound for Brand {
    ghost bound = { 0 };
}

/// What a pass has done. No value of it is made: contracts alone speak of it.
pub struct PassView {
    /// The numbers that it has pushed, the first first.
    pub pushed: LinkedList<u32>,
    /// How many pushes it has left.
    pub left: u64,
    /// The numbers that it has popped, the first first.
    pub popped: LinkedList<u32>,
}

/// The rule of a queue of numbers below a bound.
pub(crate) struct Below<B: Bound> {
    of: PhantomData<B>,
}

impl<B: Bound> Protocol<u32, PassView> for Below<B> {
    ghost holds = { IsQueueOf B.bound };

    ghost first = { pass_of [] (2 ^ 61) [] };
}

/// A push.
pub(crate) struct Pushed;

impl Outcome<u32, PassView> for Pushed {
    ghost then = { Pushes };
}

/// A pop.
pub(crate) struct Popped<B: Bound> {
    of: PhantomData<B>,
}

impl<B: Bound> Outcome<u32, PassView> for Popped<B> {
    ghost then = { Pops B.bound };
}

impl<B: Bound> Lesson<u32, PassView> for Popped<B> {
    ghost fact = { EmptyTells B.bound };
}

/// How many pushes a new pass is given.
pub(crate) trait Share {
    ghost pushes: { ℕ };
}

impl Share for Brand {
    ghost pushes = { 1 };
}

/// The cut of a pass in two.
pub(crate) struct Cut<K: Share> {
    of: PhantomData<K>,
}

impl<K: Share> Split<PassView> for Cut<K> {
    ghost use Rattle.std.specs.Prelude.{◌-◌};

    ghost left = { λ v. pass_of v.pushed (v.left - K.pushes) v.popped };

    ghost right = { λ v. pass_of [] K.pushes [] };
}
