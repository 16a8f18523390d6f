//! Formulas over principals, always in canonical form.
ghost use Rattle.std.specs.Prelude.{◌≡◌, ◌≢◌, ℕ, ◌^◌, ◌<◌, ◌≤◌, ◌↔◌, ◌++◌, ◌&&◌, ◌||◌, Bool, List};
ghost use Rattle.std.specs.Prelude.{[], ◌∷◌, length, map, IsTrue, IsOk, IfOk, nat_eq};
ghost use Rattle.std.specs.List.{All};
ghost use Rattle.std.specs.Cmp.{nat_eq_equiv, partial_equiv_from_equiv};
ghost use Rattle.std.specs.Cmp.Lexicographic.{pointwise, lists_equiv};
ghost use Rattle.lio_clauses.specs.Principals.{principals};
ghost use Rattle.lio_clauses.specs.Satisfaction.{sat, set_of};
ghost use Rattle.lio_clauses.specs.Implication.{Implies, ImplyTogether, implies};
ghost use Rattle.lio_clauses.specs.Canonical.{IsCanonical, canonical, and, or};
ghost use Rattle.lio_clauses.specs.Width.{IsWide};
ghost use Rattle.lio_clauses.specs.Without.{without};
ghost use Rattle.lio_clauses.specs.Bits.{IsFormula, unions};

use crate::faults::{FormFault, NoMemory};
use crate::masks::{are_covered, are_met};
use crate::reduce::{minimal_clauses, minimal_unions, uncovered};
use std::alloc::Global;
use std::marker::Model;
use std::slice;
use std::sync::Arc;

/// The clauses of a formula; bit n of a clause stands for principal n.
#[derive(Debug, Drop)]
enum Clauses {
    /// No clause.
    Truth,
    /// One clause, which lies in place.
    One(u64),
    /// Clauses that copies share.
    Many(Arc<Vec<u64>>),
}

/// A conjunction of at most 64 clauses, each a disjunction of principals, in canonical form: no
/// clause contains another, and the clauses stand in lexicographic order. Without a clause it is
/// True, with the empty one False.
///
/// A formula has 16 bytes. Of at most one clause it takes no memory, and of more its copies share
/// theirs.
#[derive(Debug, Drop)]
pub struct Formula {
    kept: Clauses,
}

impl Model for Formula {
    ghost use Rattle.std.specs.Prelude.{List, ℕ, map};
    ghost use Rattle.lio_clauses.specs.Principals.{principals};
    ghost use Rattle.lio_clauses.specs.Clauses.{KeepsFormula, masks_of};

    ghost Value = { List (List ℕ) };

    ghost view = { λ f. map principals (masks_of f.kept) };

    ghost invariant = { λ f. KeepsFormula f.kept };
}

/// Formulas that are made.
impl Formula {
    /// True, the formula without a clause.
    pub fn truth(_alloc: Global) -> Formula
        ensures clauses { result ≡ [] }
        ensures sets { (who : ℕ → Bool) → IsTrue (sat who result) }
    {
        Formula {
            kept: Clauses::Truth,
        }
    }

    /// False, the formula of the empty clause.
    pub fn falsity(_alloc: Global) -> Result<Formula, NoMemory>
        ensures ok { IfOk result (λ f. f ≡ [] ∷ []) }
        ensures sets { IfOk result (λ f. (who : ℕ → Bool) → ¬ IsTrue (sat who f)) }
        ensures takes_no_memory { IsOk result }
    {
        Ok(Formula {
            kept: Clauses::One(0),
        })
    }

    /// The formula of one principal.
    pub fn of_one(_alloc: Global, n: u32) -> Result<Formula, NoMemory>
        requires { n < 64 }
        ensures ok { IfOk result (λ f. f ≡ (n ∷ []) ∷ []) }
        ensures sets { IfOk result (λ f. (who : ℕ → Bool) → sat who f ≡ who n) }
        ensures takes_no_memory { IsOk result }
    {
        Ok(Formula {
            kept: Clauses::One(1 << n),
        })
    }

    /// The canonical form of the conjunction of clauses; bit n of a clause stands for principal n.
    pub fn of_clauses(alloc: Global, clauses: &[u64]) -> Result<Formula, FormFault>
        ensures ok { IfOk result (λ f. f ≡ canonical (map principals clauses.now)) }
        ensures sets { IfOk result
            (λ f. (who : ℕ → Bool) → sat who f ≡ sat who (map principals clauses.now)) }
        ensures wide { result ≢ Err FormFault.NoMemory
            → (result ≡ Err FormFault.Wide) ↔ IsWide (canonical (map principals clauses.now)) }
    {
        // A disjunction with False, the formula of the empty clause.
        Formula::of_unions(alloc, clauses, &[0])
    }

    /// The conjunction.
    pub fn and(&self, alloc: Global, other: &Formula) -> Result<Formula, FormFault>
        ensures ok { IfOk result (λ f. f ≡ and self.now other.now) }
        ensures sets { IfOk result
            (λ f. (who : ℕ → Bool) → sat who f ≡ (sat who self.now && sat who other.now)) }
        ensures wide { result ≢ Err FormFault.NoMemory
            → (result ≡ Err FormFault.Wide) ↔ IsWide (and self.now other.now) }
    {
        let (left, right) = (self.clauses(), other.clauses());
        if self.implies(other) {
            return self.copy_narrow(alloc);
        }
        if other.implies(self) {
            return other.copy_narrow(alloc);
        }
        Formula::of_both(alloc, left, right)
    }

    /// The disjunction.
    pub fn or(&self, alloc: Global, other: &Formula) -> Result<Formula, FormFault>
        ensures ok { IfOk result (λ f. f ≡ or self.now other.now) }
        ensures sets { IfOk result
            (λ f. (who : ℕ → Bool) → sat who f ≡ (sat who self.now || sat who other.now)) }
        ensures wide { result ≢ Err FormFault.NoMemory
            → (result ≡ Err FormFault.Wide) ↔ IsWide (or self.now other.now) }
    {
        let (left, right) = (self.clauses(), other.clauses());
        if self.implies(other) {
            return other.copy_narrow(alloc);
        }
        if other.implies(self) {
            return self.copy_narrow(alloc);
        }
        Formula::of_unions(alloc, left, right)
    }

    /// The clauses that a power doesn't imply.
    pub fn without(&self, alloc: Global, power: &Formula) -> Result<Formula, NoMemory>
        ensures ok { IfOk result (λ f. f ≡ without self.now power.now) }
        // What satisfies the power and what is left satisfies this formula.
        ensures made_up { IfOk result (λ f. ImplyTogether power.now f self.now) }
        ensures narrow { IfOk result (λ f. ¬ IsWide f) }
    {
        let kept = uncovered(alloc, power.clauses(), self.clauses())?;
        Formula::of_kept(alloc, kept.as_slice())
    }

    /// The canonical form of the unions of a clause of each side.
    fn of_unions(alloc: Global, left: &[u64], right: &[u64]) -> Result<Formula, FormFault>
        ensures ok { IfOk result
            (λ f. f ≡ canonical (map principals (unions left.now right.now))) }
        ensures wide { result ≢ Err FormFault.NoMemory → (result ≡ Err FormFault.Wide)
            ↔ IsWide (canonical (map principals (unions left.now right.now))) }
    {
        let kept = minimal_unions(alloc, left, right)?;
        Ok(Formula::of_kept(alloc, kept.as_slice())?)
    }

    /// The canonical form of the clauses of two formulas.
    fn of_both(alloc: Global, left: &[u64], right: &[u64]) -> Result<Formula, FormFault>
        requires left { IsFormula left.now }
        requires right { IsFormula right.now }
        ensures ok { IfOk result (λ f. f ≡ canonical (map principals (left.now ++ right.now))) }
        ensures wide { result ≢ Err FormFault.NoMemory → (result ≡ Err FormFault.Wide)
            ↔ IsWide (canonical (map principals (left.now ++ right.now))) }
    {
        let kept = minimal_clauses(alloc, left, right)?;
        Ok(Formula::of_kept(alloc, kept.as_slice())?)
    }

    /// The formula of clauses that are in canonical form already.
    pub(crate) fn of_kept(alloc: Global, kept: &[u64]) -> Result<Formula, NoMemory>
        requires { IsFormula kept.now }
        ensures ok { IfOk result (λ f. f ≡ map principals kept.now) }
        ensures takes_no_memory { length kept.now ≤ 1 → IsOk result }
    {
        let kept = match kept {
            [] => Clauses::Truth,
            [clause] => Clauses::One(*clause),
            _ => Clauses::Many(Arc::new(alloc, Vec::from_slice(alloc, kept)?)?),
        };
        Ok(Formula { kept })
    }

    /// An equal formula, which is never wide.
    fn copy_narrow(&self, alloc: Global) -> Result<Formula, FormFault>
        ensures ok { IfOk result (λ f. f ≡ self.now) }
        ensures wide { result ≢ Err FormFault.NoMemory
            → (result ≡ Err FormFault.Wide) ↔ IsWide self.now }
    {
        Ok(self.copy(alloc)?)
    }

    /// An equal formula.
    #[inline(always)]
    pub fn copy(&self, _alloc: Global) -> Result<Formula, NoMemory>
        ensures ok { IfOk result (λ f. f ≡ self.now) }
        ensures takes_no_memory { length self.now ≤ 1 → IsOk result }
    {
        let kept = match &self.kept {
            Clauses::Truth => Clauses::Truth,
            Clauses::One(clause) => Clauses::One(*clause),
            Clauses::Many(shared) => Clauses::Many(Arc::try_clone(shared)?),
        };
        Ok(Formula { kept })
    }
}

/// Questions about formulas. They take no memory.
impl Formula {
    /// The clauses in their order; bit n of a clause stands for principal n.
    pub fn clauses(&self) -> &[u64]
        ensures masks { map principals result.now ≡ self.now }
        ensures fits { All (λ m. m < 2 ^ 64) result.now }
        ensures canonical { IsCanonical self.now }
        ensures few { length result.now ≤ 64 }
    {
        match &self.kept {
            Clauses::Truth => &[],
            Clauses::One(clause) => slice::from_ref(clause),
            Clauses::Many(shared) => shared.as_slice(),
        }
    }

    /// Whether each set of principals that satisfies this formula satisfies the other one: each
    /// clause of the other contains one of this formula.
    #[inline(always)]
    pub fn implies(&self, other: &Formula) -> bool
        ensures test { result ≡ implies self.now other.now }
        ensures all_sets { IsTrue result ↔ Implies self.now other.now }
    {
        match (&self.kept, &other.kept) {
            (_, Clauses::Truth) => true,
            (Clauses::One(clause), Clauses::One(implied)) => *clause & *implied == *clause,
            _ => self.implies_each(other),
        }
    }

    /// The same by all clauses. Equal formulas imply each other.
    fn implies_each(&self, other: &Formula) -> bool
        ensures { result ≡ implies self.now other.now }
    {
        let (left, right) = (self.clauses(), other.clauses());
        left == right || are_covered(&[], left, right)
    }

    /// Whether each set of principals that satisfies this formula and another one satisfies the
    /// last one.
    pub fn implies_with(&self, with: &Formula, other: &Formula) -> bool
        ensures test { result ≡ implies (self.now ++ with.now) other.now }
        ensures all_sets { IsTrue result ↔ ImplyTogether self.now with.now other.now }
    {
        are_covered(self.clauses(), with.clauses(), other.clauses())
    }

    /// Whether a set of principals satisfies the formula; bit n of the set stands for principal n.
    pub fn satisfied_by(&self, who: u64) -> bool
        ensures test { result ≡ sat (set_of (principals who)) self.now }
        // The same for each test that has the members of `who` below 64, whatever it says of other
        // numbers.
        ensures set { (P : ℕ → Bool)
            → ((n : ℕ) → n < 64 → P n ≡ set_of (principals who) n) → result ≡ sat P self.now }
    {
        are_met(self.clauses(), who)
    }
}

impl PartialEq for Formula {
    ghost eq = { pointwise (pointwise nat_eq) };

    ghost laws = { partial_equiv_from_equiv (lists_equiv (lists_equiv nat_eq_equiv)) };

    fn eq(&self, other: &Formula) -> bool
        ensures test { result ≡ pointwise (pointwise nat_eq) self.now other.now }
        ensures same { IsTrue result ↔ (self.now ≡ other.now) }
    {
        self.clauses() == other.clauses()
    }
}

impl Eq for Formula {
    ghost laws = { lists_equiv (lists_equiv nat_eq_equiv) };
}
