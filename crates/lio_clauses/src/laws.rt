//! The laws of implication, of the canonical form, and of conjunction and disjunction. Each
//! function does nothing: its contract is the law.
#![tactic(auto, using(crate::proofs::Algebra::laws))]

ghost use Rattle.lio_clauses.specs.Laws.{CanonicalFormIsCanonical, CanonicalFormIsUnique};
ghost use Rattle.lio_clauses.specs.Laws.{CanonicalFormMeansTheSame, CanonicalFormOfCanonical};
ghost use Rattle.lio_clauses.specs.Laws.{ConjunctionImpliesLeft, ConjunctionImpliesRight};
ghost use Rattle.lio_clauses.specs.Laws.{ConjunctionIsAssociative, ConjunctionIsCanonical};
ghost use Rattle.lio_clauses.specs.Laws.{ConjunctionIsCommutative, ConjunctionIsGreatest};
ghost use Rattle.lio_clauses.specs.Laws.{ConjunctionIsIdempotent, ConjunctionIsNamed};
ghost use Rattle.lio_clauses.specs.Laws.{ConjunctionMeansBoth, DisjunctionIsAssociative};
ghost use Rattle.lio_clauses.specs.Laws.{DisjunctionIsCanonical, DisjunctionIsCommutative};
ghost use Rattle.lio_clauses.specs.Laws.{DisjunctionIsIdempotent, DisjunctionIsLeast};
ghost use Rattle.lio_clauses.specs.Laws.{DisjunctionIsNamed, DisjunctionMeansEither};
ghost use Rattle.lio_clauses.specs.Laws.{FalsityIsLeast, ImplicationIsAntisymmetric};
ghost use Rattle.lio_clauses.specs.Laws.{ImplicationIsByClauses, ImplicationIsReflexive};
ghost use Rattle.lio_clauses.specs.Laws.{ImplicationIsTested, ImplicationIsTransitive};
ghost use Rattle.lio_clauses.specs.Laws.{LeftImpliesDisjunction, RightImpliesDisjunction};
ghost use Rattle.lio_clauses.specs.Laws.{TruthIsGreatest, WithoutIsCanonical, WithoutIsImplied};
ghost use Rattle.lio_clauses.specs.Laws.{WithoutIsMadeUp, WithoutIsNamed, WithoutIsShorter};

/// The test of implication and implication over all sets of principals agree.
pub fn implication_is_tested()
    ensures { ImplicationIsTested }
{}

/// A formula implies itself.
pub fn implication_is_reflexive()
    ensures { ImplicationIsReflexive }
{}

/// What a formula implies implies in turn, it implies.
pub fn implication_is_transitive()
    ensures { ImplicationIsTransitive }
{}

/// Canonical formulas that imply each other are equal.
pub fn implication_is_antisymmetric()
    ensures { ImplicationIsAntisymmetric }
{}

/// A formula implies another exactly where each clause of the other contains one of its own.
pub fn implication_is_by_clauses()
    ensures { ImplicationIsByClauses }
{}

/// False implies each formula.
pub fn falsity_is_least()
    ensures { FalsityIsLeast }
{}

/// Each formula implies True.
pub fn truth_is_greatest()
    ensures { TruthIsGreatest }
{}

/// Two canonical formulas that the same sets satisfy are equal.
pub fn canonical_form_is_unique()
    ensures { CanonicalFormIsUnique }
{}

/// The canonical form is canonical.
pub fn canonical_form_is_canonical()
    ensures { CanonicalFormIsCanonical }
{}

/// The same sets satisfy a formula and its canonical form.
pub fn canonical_form_means_the_same()
    ensures { CanonicalFormMeansTheSame }
{}

/// A canonical formula is its own canonical form.
pub fn canonical_form_of_canonical()
    ensures { CanonicalFormOfCanonical }
{}

/// The conjunction is canonical.
pub fn conjunction_is_canonical()
    ensures { ConjunctionIsCanonical }
{}

/// Exactly the sets satisfy the conjunction that satisfy both formulas.
pub fn conjunction_means_both()
    ensures { ConjunctionMeansBoth }
{}

/// The disjunction is canonical.
pub fn disjunction_is_canonical()
    ensures { DisjunctionIsCanonical }
{}

/// Exactly the sets satisfy the disjunction that satisfy at least one formula.
pub fn disjunction_means_either()
    ensures { DisjunctionMeansEither }
{}

/// The conjunction implies its left formula.
pub fn conjunction_implies_left()
    ensures { ConjunctionImpliesLeft }
{}

/// The conjunction implies its right formula.
pub fn conjunction_implies_right()
    ensures { ConjunctionImpliesRight }
{}

/// What implies both formulas implies their conjunction.
pub fn conjunction_is_greatest()
    ensures { ConjunctionIsGreatest }
{}

/// The left formula implies the disjunction.
pub fn left_implies_disjunction()
    ensures { LeftImpliesDisjunction }
{}

/// The right formula implies the disjunction.
pub fn right_implies_disjunction()
    ensures { RightImpliesDisjunction }
{}

/// The disjunction implies what both formulas imply.
pub fn disjunction_is_least()
    ensures { DisjunctionIsLeast }
{}

/// The order of two formulas makes no difference to their conjunction.
pub fn conjunction_is_commutative()
    ensures { ConjunctionIsCommutative }
{}

/// The grouping of three formulas makes no difference to their conjunction.
pub fn conjunction_is_associative()
    ensures { ConjunctionIsAssociative }
{}

/// The conjunction of a formula with itself is that formula.
pub fn conjunction_is_idempotent()
    ensures { ConjunctionIsIdempotent }
{}

/// The order of two formulas makes no difference to their disjunction.
pub fn disjunction_is_commutative()
    ensures { DisjunctionIsCommutative }
{}

/// The grouping of three formulas makes no difference to their disjunction.
pub fn disjunction_is_associative()
    ensures { DisjunctionIsAssociative }
{}

/// The disjunction of a formula with itself is that formula.
pub fn disjunction_is_idempotent()
    ensures { DisjunctionIsIdempotent }
{}

/// The conjunction names no principal that neither formula names: where the principals of both have
/// names, so have its own.
pub fn conjunction_is_named()
    ensures { ConjunctionIsNamed }
{}

/// The disjunction names no principal that neither formula names: where the principals of both have
/// names, so have its own.
pub fn disjunction_is_named()
    ensures { DisjunctionIsNamed }
{}

/// A canonical formula without the clauses that a power implies is canonical.
pub fn without_is_canonical()
    ensures { WithoutIsCanonical }
{}

/// A formula without the clauses that a power implies has no more clauses.
pub fn without_is_shorter()
    ensures { WithoutIsShorter }
{}

/// A formula without the clauses that a power implies names no principal that the formula doesn't
/// name.
pub fn without_is_named()
    ensures { WithoutIsNamed }
{}

/// A formula implies what is left without the clauses that a power implies.
pub fn without_is_implied()
    ensures { WithoutIsImplied }
{}

/// What satisfies a power, and a formula without the clauses that the power implies, satisfies the
/// formula.
pub fn without_is_made_up()
    ensures { WithoutIsMadeUp }
{}
