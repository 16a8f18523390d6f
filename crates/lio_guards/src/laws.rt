//! The laws of guards. Each function does nothing: its contract is the law.
#![tactic(auto, using(crate::proofs::AllLaws::laws))]

ghost use Rattle.lio_guards.specs.Width.{WidthIsTested};
ghost use Rattle.lio_guards.specs.Laws.{CurrentFlowsToExposed, CurrentFlowsToLabel};
ghost use Rattle.lio_guards.specs.Laws.{CurrentFlowsToLowered, ExposeJoinsLabel};
ghost use Rattle.lio_guards.specs.Laws.{ExposeRefusedWhereTestFails, ExposedFlowsToClearance};
ghost use Rattle.lio_guards.specs.Laws.{ExposedFlowsWithPrivilege, ExposedIsNarrow};
ghost use Rattle.lio_guards.specs.Laws.{CurrentFlowsToReleased, CurrentFlowsToWritten};
ghost use Rattle.lio_guards.specs.Laws.{ExchangeTakesLabel, LabelFlowsToClearance};
ghost use Rattle.lio_guards.specs.Laws.{LearntFlowsToLabel, LoweredFlowsToClearance, RaiseIsNarrow};
ghost use Rattle.lio_guards.specs.Laws.{RaiseJoinsLabel, RefusedWhereTestFails, ReleaseKeepsLabel};
ghost use Rattle.lio_guards.specs.Laws.{ReleaseRefusedWhereTestFails, ReleasedFlowsToClearance};
ghost use Rattle.lio_guards.specs.Laws.{SourceFlowsWithPrivilege, WriteKeepsLabel};
ghost use Rattle.lio_guards.specs.Laws.{WrittenFlowsToClearance};

/// A label is wide by the test exactly where it is wide.
pub fn width_is_tested()
    ensures { WidthIsTested }
{}

/// The current label flows to what is made or written to.
pub fn current_flows_to_written()
    ensures { CurrentFlowsToWritten }
{}

/// What is made or written to flows to the clearance.
pub fn written_flows_to_clearance()
    ensures { WrittenFlowsToClearance }
{}

/// What is learnt from flows to the new current label.
pub fn learnt_flows_to_label()
    ensures { LearntFlowsToLabel }
{}

/// The current label flows to the new one.
pub fn current_flows_to_label()
    ensures { CurrentFlowsToLabel }
{}

/// The new current label flows to the clearance.
pub fn label_flows_to_clearance()
    ensures { LabelFlowsToClearance }
{}

/// An operation that writes alone keeps the current label.
pub fn write_keeps_label()
    ensures { WriteKeepsLabel }
{}

/// An operation that learns alone raises the current label to its join with the target's.
pub fn raise_joins_label()
    ensures { RaiseJoinsLabel }
{}

/// A raised label isn't wide.
pub fn raise_is_narrow()
    ensures { RaiseIsNarrow }
{}

/// An operation that learns and writes takes the target's label.
pub fn exchange_takes_label()
    ensures { ExchangeTakesLabel }
{}

/// The current label flows to a lowered clearance.
pub fn current_flows_to_lowered()
    ensures { CurrentFlowsToLowered }
{}

/// A lowered clearance flows to the old one.
pub fn lowered_flows_to_clearance()
    ensures { LoweredFlowsToClearance }
{}

/// An operation is refused only where the test that the fault names fails, for the labels that it
/// keeps.
pub fn refused_where_test_fails()
    ensures { RefusedWhereTestFails }
{}

/// The current label flows to what is released to.
pub fn current_flows_to_released()
    ensures { CurrentFlowsToReleased }
{}

/// What is released to flows to the clearance.
pub fn released_flows_to_clearance()
    ensures { ReleasedFlowsToClearance }
{}

/// What is released flows to what it is released to with the privilege.
pub fn source_flows_with_privilege()
    ensures { SourceFlowsWithPrivilege }
{}

/// A release keeps the current label.
pub fn release_keeps_label()
    ensures { ReleaseKeepsLabel }
{}

/// A release is refused only where the test that the fault names fails, for the labels that it
/// keeps.
pub fn release_refused_where_test_fails()
    ensures { ReleaseRefusedWhereTestFails }
{}

/// The new current label of a task that exposes is the old one joined with the source's label as
/// the privilege lowers it.
pub fn expose_joins_label()
    ensures { ExposeJoinsLabel }
{}

/// The current label flows to the one at which a task goes on that exposes.
pub fn current_flows_to_exposed()
    ensures { CurrentFlowsToExposed }
{}

/// The current label at which a task goes on that exposes flows to the clearance.
pub fn exposed_flows_to_clearance()
    ensures { ExposedFlowsToClearance }
{}

/// The current label at which a task goes on that exposes isn't wide.
pub fn exposed_is_narrow()
    ensures { ExposedIsNarrow }
{}

/// What is exposed flows with the privilege to the current label at which the task goes on.
pub fn exposed_flows_with_privilege()
    ensures { ExposedFlowsWithPrivilege }
{}

/// Exposing is refused only where the test that the fault names fails, for the labels that it
/// keeps.
pub fn expose_refused_where_test_fails()
    ensures { ExposeRefusedWhereTestFails }
{}
