//! Operators on two texts, and on a text and a whole.
#![tactic(auto, using(crate::proofs::TextLemmas::first_place_found))]

ghost use Rattle.std.specs.Prelude.{◌≡◌, ◌≤◌, ◌++◌, ℕ, ℤ, List, length, min, take, drop, IfSome};
ghost use Rattle.std.specs.Prelude.{IsTrue};
ghost use Rattle.lio_operators.specs.Answers.{Answers};
ghost use Rattle.lio_operators.specs.Operators.{bare};
ghost use Rattle.lio_operators.specs.Outcomes.{Tells, cuts, is_large, joins};
ghost use Rattle.lio_operators.specs.Texts as spec;
ghost use Rattle.lio_operators.specs.Texts.{made, first_place, place_or_less, place_at};

use crate::faults::OpFault;
use crate::outcome::Outcome;
use lio_syntax_lines::Two;
use lio_values::{FaultKind, Plain, Small, Text, Trap};
use memchr::memmem;
use std::alloc::Global;

/// A text, where it isn't longer than texts may be.
pub(crate) fn made(alloc: Global, text: &[u8], longest: u32) -> Result<Plain, OpFault>
    ensures { Answers (made longest text.now) result }
{
    if text.len() > longest as usize {
        return Err(OpFault::Kind(FaultKind::TooLong));
    }
    Ok(Plain::Bytes(Text::of(alloc, text)?))
}

/// The one text and then the other.
pub(crate) fn joined(alloc: Global, a: &[u8], b: &[u8], longest: u32) -> Result<Plain, OpFault>
    ensures { Answers (made longest (a.now ++ b.now)) result }
{
    if a.len() + b.len() > longest as usize {
        return Err(OpFault::Kind(FaultKind::TooLong));
    }
    Ok(Plain::Bytes(Text::joined(alloc, a, b)?))
}

/// The first place at which a text stands in another.
fn first_place(part: &[u8], text: &[u8]) -> Option<usize>
    ensures value { result ≡ first_place part.now text.now }
    ensures inside { IfSome result (λ place. place ≤ length text.now) }
{
    memmem::find(text, part)
}

/// The first place at which a text stands in another, or -1.
fn place_of(part: &[u8], text: &[u8]) -> i64
    ensures { result ≡ place_or_less (first_place part.now text.now) }
{
    match first_place(part, text) {
        Some(place) => place as i64,
        None => -1,
    }
}

/// What an operator on two texts gives without memory.
pub(crate) fn small_of_texts(op: Two, a: &[u8], b: &[u8]) -> Outcome
    ensures large { is_large result ≡ joins op }
    ensures given { (longest : ℕ) → Tells result (bare (spec.on_texts longest op a.now b.now)) }
{
    match op {
        Two::Add => Outcome::Large,
        Two::Eq => Outcome::Value(Small::Flag(a == b)),
        Two::Ne => Outcome::Value(Small::Flag(a != b)),
        Two::Lt => Outcome::Value(Small::Flag(a.cmp(&b).is_lt())),
        Two::Le => Outcome::Value(Small::Flag(a.cmp(&b).is_le())),
        Two::Find => Outcome::Value(Small::Whole(place_of(b, a))),
        _ => Outcome::Fault(Trap::BadType),
    }
}

/// What an operator on a text and a whole gives without memory.
pub(crate) fn small_of_text_at(op: Two) -> Outcome
    ensures large { is_large result ≡ cuts op }
    ensures given { (longest : ℕ) (text : List ℕ) (at : ℤ)
        → Tells result (bare (spec.on_text_at longest op text at)) }
{
    match op {
        Two::From | Two::Upto => Outcome::Large,
        _ => Outcome::Fault(Trap::BadType),
    }
}

/// The place that a whole names in what has so many bytes or items: the start for one below 0, and
/// the end for one past it.
pub(crate) fn place_in(len: usize, at: i64) -> usize
    ensures { result ≡ min (place_at at) len }
{
    if at < 0 { 0 } else { (at as usize).min(len) }
}

/// The bytes from a place on.
fn bytes_from(alloc: Global, text: &[u8], at: i64, longest: u32) -> Result<Plain, OpFault>
    ensures { Answers (made longest (drop (place_at at) text.now)) result }
{
    let place = place_in(text.len(), at);
    made(alloc, &text[place..], longest)
}

/// The bytes up to a place.
fn bytes_upto(alloc: Global, text: &[u8], at: i64, longest: u32) -> Result<Plain, OpFault>
    ensures { Answers (made longest (take (place_at at) text.now)) result }
{
    let place = place_in(text.len(), at);
    made(alloc, &text[..place], longest)
}

/// An operator on a text and a whole.
pub(crate) fn on_text_at(
    alloc: Global,
    op: Two,
    text: &[u8],
    at: i64,
    longest: u32,
) -> Result<Plain, OpFault>
    requires { IsTrue (cuts op) }
    ensures { Answers (spec.on_text_at longest op text.now at) result }
{
    match op {
        Two::From => bytes_from(alloc, text, at, longest),
        Two::Upto => bytes_upto(alloc, text, at, longest),
        _ => unreachable!(),
    }
}
