//! The laws of the calculus. Each function does nothing: its contract is the law.
ghost use Rattle.lio_calculus.specs.Afforded.{PlanAfforded};
ghost use Rattle.lio_calculus.specs.Effect.{StepIsItsEntry};
ghost use Rattle.lio_calculus.specs.Enabled.{LowTurnsWhereEnabled, SeenTaskIsEnabledBelow};
ghost use Rattle.lio_calculus.specs.Guarded.{TurnIsGuarded};
ghost use Rattle.lio_calculus.specs.Handles.{VisitMeetsHandle};
ghost use Rattle.lio_calculus.specs.Hiding.{PlanHidden};
ghost use Rattle.lio_calculus.specs.Laws.{RunIsErasedRun, SeenTurnIsErasedTurn, TurnKeepsSoundness};
ghost use Rattle.lio_calculus.specs.Laws.{UnseenTurnChangesNothing, UnseenTurnReleasesNothing};
ghost use Rattle.lio_calculus.specs.Locality.{RefusedTurnChangesActorAlone, StepChangesTwoCells};
ghost use Rattle.lio_calculus.specs.Locality.{StepLooksAtTwoCells, StepMakesTheSameCells};
ghost use Rattle.lio_calculus.specs.Meeting.{VisitMeetsNode};
ghost use Rattle.lio_calculus.specs.Powers.{PowersAreGiven};
ghost use Rattle.lio_calculus.specs.Purity.{ErasedIsPure, LowTurnKeepsPurity, SoundIsPure};
ghost use Rattle.lio_calculus.specs.Purity.{TurnKeepsPurity};
ghost use Rattle.lio_calculus.specs.Sends.{SendsAreSeen};
ghost use Rattle.lio_calculus.specs.Waiting.{TaskCanUnlessStill};

/// The plan of a task that is seen with hidden values is its plan with hidden values.
#[tactic(auto, using(crate::proofs::LawLemmas::plan_of_hidden))]
pub fn plan_of_hidden()
    ensures { PlanHidden }
{}

/// A task whose label flows to its clearance has what the plan of its next turn needs.
#[tactic(auto, using(crate::proofs::LawLemmas::plan_can_be_carried_out))]
pub fn plan_can_be_carried_out()
    ensures { PlanAfforded }
{}

/// In a sound configuration each visit meets a node that is there.
pub fn visit_meets_node()
    ensures { VisitMeetsNode }
{}

/// Each visit meets its node by the handle that the task names ahead.
pub fn visit_meets_handle()
    ensures { VisitMeetsHandle }
{}

/// Each turn looks at what is below the task's label, and changes what is above.
pub fn turn_is_guarded()
    ensures { TurnIsGuarded }
{}

/// Each turn keeps a configuration sound.
pub fn turn_keeps_soundness()
    ensures { TurnKeepsSoundness }
{}

/// A turn above an observer changes nothing that the observer sees.
#[tactic(auto, using(crate::proofs::LawLemmas::unseen_turn_changes_nothing))]
pub fn unseen_turn_changes_nothing()
    ensures { UnseenTurnChangesNothing }
{}

/// A turn above an observer releases nothing to it.
pub fn unseen_turn_releases_nothing()
    ensures { UnseenTurnReleasesNothing }
{}

/// A turn below an observer is the turn of the erased calculus.
#[tactic(auto, using(crate::proofs::LawLemmas::seen_turn_is_erased_turn))]
pub fn seen_turn_is_erased_turn()
    ensures { SeenTurnIsErasedTurn }
{}

/// A run, seen by an observer, is the run of the erased calculus from what the observer sees, and
/// gives the view.
pub fn run_is_erased_run()
    ensures { RunIsErasedRun }
{}

/// A task below an observer can take a turn of the erased calculus exactly where it can take one of
/// the calculus.
pub fn seen_task_is_enabled_below()
    ensures { SeenTaskIsEnabledBelow }
{}

/// The erased step is undefined only for a task that can't take a turn, or for want of a released
/// content.
pub fn low_turns_where_enabled()
    ensures { LowTurnsWhereEnabled }
{}

/// A turn changes the actor's cell and its target's alone.
pub fn step_changes_two_cells()
    ensures { StepChangesTwoCells }
{}

/// A turn goes by the actor's cell and the one that its plan visits alone.
pub fn step_looks_at_two_cells()
    ensures { StepLooksAtTwoCells }
{}

/// What a turn makes of these two cells goes by them alone.
pub fn step_makes_the_same_cells()
    ensures { StepMakesTheSameCells }
{}

/// A turn makes of each cell what its entry makes of it.
pub fn step_is_its_entry()
    ensures { StepIsItsEntry }
{}

/// A refused turn changes the actor alone, and keeps its labels, its range and its node.
pub fn refused_turn_changes_actor_alone()
    ensures { RefusedTurnChangesActorAlone }
{}

/// A task can take a turn unless it has ended or waits for a node.
pub fn task_can_unless_still()
    ensures { TaskCanUnlessStill }
{}

/// Privileges are given and never made.
pub fn powers_are_given()
    ensures { PowersAreGiven }
{}

/// An observer of a channel sees all that a run sends to it.
pub fn sends_are_seen()
    ensures { SendsAreSeen }
{}

/// What the contents of a sound configuration keep is pure.
pub fn sound_is_pure()
    ensures { SoundIsPure }
{}

/// What an observer sees of pure contents is pure.
pub fn erased_is_pure()
    ensures { ErasedIsPure }
{}

/// A turn leaves contents pure, and shows pure ones.
pub fn turn_keeps_purity()
    ensures { TurnKeepsPurity }
{}

/// A turn of the erased calculus leaves contents pure, and shows pure ones, where the released
/// contents are pure.
pub fn low_turn_keeps_purity()
    ensures { LowTurnKeepsPurity }
{}
