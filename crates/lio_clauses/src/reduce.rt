//! The minimal clauses of a conjunction, kept in lexicographic order.
ghost use Rattle.std.specs.Prelude.{◌≡◌, ◌≢◌, ℕ, ◌+◌, ◌^◌, ◌<◌, ◌≤◌, true, false, List, [], ◌∷◌};
ghost use Rattle.std.specs.Prelude.{◌++◌, length, map, insert, IsTrue, IfOk, OnOk, OnErr, bit_and};
ghost use Rattle.std.specs.Prelude.{not, slice_index};
ghost use Rattle.std.specs.List.{All, filter};
ghost use Rattle.std.specs.List.Sorted.{IsNonDecreasing, IsPermutation};
ghost use Rattle.lio_clauses.specs.Principals.{principals};
ghost use Rattle.lio_clauses.specs.Canonical.{canonical, in_order};
ghost use Rattle.lio_clauses.specs.Width.{IsWide};
ghost use Rattle.lio_clauses.specs.Bits.{IsFormula, IsLeastUncovered, IsNextMinimal};
ghost use Rattle.lio_clauses.specs.Bits.{KeepsMinimal, covers, mask_before, unions};

use crate::faults::{FormFault, NoMemory};
use crate::masks::{contains_other, is_covered};
use smallvec::SmallVec;
use std::alloc::Global;

/// The most clauses that a formula has.
const MAX_CLAUSES: usize = 64;

/// The minimal clauses that were found so far. Up to four take no memory.
pub(crate) type Kept = SmallVec<u64, 4>;

/// The unions of a clause of each side. Up to sixteen take no memory.
type Unions = SmallVec<u64, 16>;

/// Keeps one more minimal clause of some clauses. After a fault the kept ones are as before.
fn keep(kept: &mut Kept, clause: u64) -> Result<(), FormFault>
    requires { (clauses : List ℕ) × KeepsMinimal clauses kept.old.items
        × IsNextMinimal kept.old.items clauses clause }
    ensures room { OnOk result (length kept.old.items < 64) }
    ensures one_more { OnOk result (length kept.new.items ≡ length kept.old.items + 1) }
    ensures inserted { OnOk result ((place : ℕ) × (place ≤ length kept.old.items)
        × (kept.new.items ≡ insert kept.old.items place clause)) }
    ensures minimal { OnOk result ((clauses : List ℕ) → KeepsMinimal clauses kept.old.items
        → IsNextMinimal kept.old.items clauses clause
        → KeepsMinimal clauses kept.new.items) }
    ensures wide { result ≡ Err FormFault.Wide
        → (clauses : List ℕ) → KeepsMinimal clauses kept.old.items
        → IsNextMinimal kept.old.items clauses clause
        → IsWide (canonical (map principals clauses)) }
    ensures unchanged { OnErr result (kept.new.items ≡ kept.old.items) }
{
    if kept.len() == MAX_CLAUSES {
        return Err(FormFault::Wide);
    }
    let place = place_of(kept.as_slice(), clause);
    insert(kept, place, clause)?;
    Ok(())
}

/// Puts a clause in at a place. After a fault the kept ones are as before.
fn insert(kept: &mut Kept, place: usize, clause: u64) -> Result<(), NoMemory>
    requires { place ≤ length kept.old.items }
    ensures ok { OnOk result (kept.new.items ≡ insert kept.old.items place clause) }
    ensures err { OnErr result (kept.new.items ≡ kept.old.items) }
{
    kept.insert(place, clause)?;
    Ok(())
}

/// The minimal ones of the unions of a clause of each side, in lexicographic order: the canonical
/// form of the disjunction.
pub(crate) fn minimal_unions(alloc: Global, left: &[u64], right: &[u64]) -> Result<Kept, FormFault>
    ensures formula { IfOk result (λ kept. IsFormula kept.items) }
    ensures canonical { IfOk result (λ kept. map principals kept.items
        ≡ canonical (map principals (unions left.now right.now))) }
    ensures wide { result ≡ Err FormFault.Wide
        → IsWide (canonical (map principals (unions left.now right.now))) }
{
    let mut clauses = all_unions(alloc, left, right)?;
    clauses.as_mut_slice().sort_unstable();
    minimal_of_rising(alloc, clauses.as_slice())
}

/// The unions of a clause of each side.
fn all_unions(alloc: Global, left: &[u64], right: &[u64]) -> Result<Unions, NoMemory>
    ensures { IfOk result (λ clauses. clauses.items ≡ unions left.now right.now) }
{
    let mut clauses = Unions::new(alloc);
    'lefts: for a in left {
        'rights: for b in right {
            clauses.push(*a | *b)?;
        }
    }
    Ok(clauses)
}

/// The minimal ones of clauses that come in rising number, in lexicographic order. A clause that
/// contains another one has no lesser number, so each that contains no kept one is minimal.
fn minimal_of_rising(alloc: Global, clauses: &[u64]) -> Result<Kept, FormFault>
    requires { IsNonDecreasing clauses.now }
    ensures minimal { IfOk result (λ kept. KeepsMinimal clauses.now kept.items
        × IsLeastUncovered kept.items clauses.now None) }
    ensures wide { result ≡ Err FormFault.Wide → (others : List ℕ)
        → IsPermutation clauses.now others → IsWide (canonical (map principals others)) }
{
    let mut kept = Kept::new(alloc);
    'clauses: for clause in clauses {
        if is_covered(kept.as_slice(), *clause) {
            continue;
        }
        keep(&mut kept, *clause)?;
    }
    Ok(kept)
}

/// The minimal ones of the clauses of two formulas, in lexicographic order: the canonical form of
/// the conjunction.
pub(crate) fn minimal_clauses(alloc: Global, left: &[u64], right: &[u64]) -> Result<Kept, FormFault>
    requires left { IsFormula left.now }
    requires right { IsFormula right.now }
    ensures formula { IfOk result (λ kept. IsFormula kept.items) }
    ensures canonical { IfOk result (λ kept. map principals kept.items
        ≡ canonical (map principals (left.now ++ right.now))) }
    ensures wide { result ≡ Err FormFault.Wide
        → IsWide (canonical (map principals (left.now ++ right.now))) }
{
    let mut kept = Kept::new(alloc);
    'lefts: for clause in left {
        if contains_other(right, *clause) {
            continue;
        }
        keep(&mut kept, *clause)?;
    }
    'rights: for clause in right {
        if is_covered(left, *clause) {
            continue;
        }
        keep(&mut kept, *clause)?;
    }
    Ok(kept)
}

/// The clauses that contain none of a power's, in their order.
pub(crate) fn uncovered(alloc: Global, power: &[u64], clauses: &[u64]) -> Result<Kept, NoMemory>
    ensures { IfOk result (λ kept. kept.items
        ≡ filter (λ clause. not (covers power.now clause)) clauses.now) }
{
    let mut kept = Kept::new(alloc);
    'clauses: for clause in clauses {
        if !is_covered(power, *clause) {
            kept.push(*clause)?;
        }
    }
    Ok(kept)
}

/// Where a clause has its place among kept ones in lexicographic order, where none contains
/// another. Clauses that come in order have theirs at the end.
fn place_of(kept: &[u64], clause: u64) -> usize
    requires apart { All (λ k. (bit_and k clause ≢ k) × (bit_and clause k ≢ clause)) kept.now }
    requires ordered { IsTrue (in_order mask_before kept.now) }
    ensures within { result ≤ length kept.now }
    ensures before { (k : ℕ) → k < result → mask_before clause (slice_index kept.now k) ≡ false }
    ensures after { result < length kept.now
        → mask_before clause (slice_index kept.now result) ≡ true }
{
    for i in (0..kept.len()).rev() {
        if !precedes(clause, kept[i]) {
            return i + 1;
        }
    }
    0
}

/// Whether a clause stands before another in lexicographic order, where neither contains the other:
/// the lowest principal in which they differ is its own.
fn precedes(a: u64, b: u64) -> bool
    requires a_apart { bit_and a b ≢ a }
    requires b_apart { bit_and b a ≢ b }
    ensures { result ≡ mask_before a b }
{
    let differing = a ^ b;
    differing != 0 && (a >> differing.trailing_zeros()) & 1 == 1
}
