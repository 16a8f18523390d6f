//! The queue.
ghost use Rattle.std.specs.Prelude.{◌≡◌, ◌<◌, ◌≤◌, ◌-◌, ◌^◌, [], IfOk, MatchOption, MatchResult};
ghost use Rattle.lio_runq.specs.Passes.{IsPassOf, left_of, popped_of, pushed_of, done_by};
ghost use Rattle.lio_runq.specs.Rule.{EmptyTells, Pops, Pushes, pass_of};

use crate::passes::RunPass;
use crate::rule::{Below, Bound, Cut, PassView, Popped, Pushed, Share};
use crossbeam_queue::RuledSegQueue;
use lio_clauses::NoMemory;
use std::alloc::Global;
use std::marker::{Brand, PhantomData};
use std::sync::Wait;

/// How many pushes the first pass of a queue has: 2^61.
const ALL_PUSHES: u64 = 1 << 61;

/// A queue of numbers below a bound, first in, first out, which threads share.
pub struct RunQueue<B: Bound> {
    numbers: RuledSegQueue<u32, PassView, Below<B>, Global>,
}

impl<B: Bound> RunQueue<B> {
    /// An empty queue of numbers below the bound, and its first pass, which has all pushes left.
    pub fn new(alloc: Global, _bound: u32) -> Result<(RunQueue<B>, RunPass<B>), NoMemory>
        requires { _bound ≡ B.bound }
        ensures { IfOk result (λ both. IsPassOf both.0.numbers both.1.seat
            × (done_by both.1.seat ≡ pass_of [] (2 ^ 61) [])) }
    {
        let (numbers, seat) = RuledSegQueue::with_rule(alloc)?;
        let pass = RunPass {
            seat,
            left: ALL_PUSHES,
            of: PhantomData,
        };
        Ok((RunQueue { numbers }, pass))
    }

    /// Cuts a pass in two: the new one has this many pushes left.
    pub fn split_pass(&self, pass: &mut RunPass<B>, pushes: u64) -> RunPass<B>
        requires queue { IsPassOf self.now.numbers pass.old.seat }
        requires some { 1 ≤ pushes }
        requires left { pushes < left_of pass.old.seat }
        ensures queue { IsPassOf self.now.numbers pass.new.seat × IsPassOf self.now.numbers result.seat }
        ensures old { done_by pass.new.seat ≡ pass_of (pushed_of pass.old.seat)
            (left_of pass.old.seat - pushes) (popped_of pass.old.seat) }
        ensures new { done_by result.seat ≡ pass_of [] pushes [] }
    {
        self.split_share::<Brand>(pass, pushes)
    }

    /// The same, with the number of pushes as a ghost member too.
    fn split_share<K: Share>(&self, pass: &mut RunPass<B>, pushes: u64) -> RunPass<B>
        requires queue { IsPassOf self.now.numbers pass.old.seat }
        requires share { pushes ≡ K.pushes }
        requires some { 1 ≤ pushes }
        requires left { pushes < left_of pass.old.seat }
        ensures queue { IsPassOf self.now.numbers pass.new.seat × IsPassOf self.now.numbers result.seat }
        ensures old { done_by pass.new.seat ≡ pass_of (pushed_of pass.old.seat)
            (left_of pass.old.seat - pushes) (popped_of pass.old.seat) }
        ensures new { done_by result.seat ≡ pass_of [] pushes [] }
    {
        let RunPass { seat, left, of: _ } = pass;
        let other = self.numbers.another::<Cut<K>>(seat);
        *left -= pushes;
        RunPass {
            seat: other,
            left: pushes,
            of: PhantomData,
        }
    }

    /// Puts a number at the back. After a refusal of memory queue and pass are as before.
    pub fn push<R: Wait>(&self, rt: &R, pass: &mut RunPass<B>, n: u32) -> Result<(), NoMemory>
        requires queue { IsPassOf self.now.numbers pass.old.seat }
        requires below { n < B.bound }
        requires left { 0 < left_of pass.old.seat }
        ensures queue { IsPassOf self.now.numbers pass.new.seat }
        ensures done { MatchResult result (λ _. Pushes (done_by pass.old.seat) n (done_by pass.new.seat))
            (λ _. done_by pass.new.seat ≡ done_by pass.old.seat) }
    {
        let RunPass { seat, left, of: _ } = pass;
        match self.numbers.push_as::<Pushed, R>(rt, seat, n) {
            Ok(()) => {
                *left -= 1;
                Ok(())
            }
            Err(_) => Err(NoMemory),
        }
    }

    /// Takes the number at the front. None only where the queue was empty at a moment of the call.
    pub fn pop<R: Wait>(&self, rt: &R, pass: &mut RunPass<B>) -> Option<u32>
        requires queue { IsPassOf self.now.numbers pass.old.seat }
        ensures queue { IsPassOf self.now.numbers pass.new.seat }
        ensures done { MatchOption result
            ((done_by pass.new.seat ≡ done_by pass.old.seat) × EmptyTells B.bound (done_by pass.old.seat) [])
            (λ n. Pops B.bound (done_by pass.old.seat) n (done_by pass.new.seat)) }
    {
        self.numbers.pop_as::<Popped<B>, R>(rt, &mut pass.seat)
    }

    /// Ends the queue, with what it holds.
    pub fn destroy(self) {
        let RunQueue { numbers } = self;
        numbers.destroy();
    }
}
