//! The laws of the order of turns and of well-formed configurations. Each function does nothing:
//! its contract is the law.
ghost use Rattle.lio_calculus_runs.specs.RoundLaws.{RoundKeepsTheOrder, RoundMovesInOrder};
ghost use Rattle.lio_calculus_runs.specs.RoundLaws.{RoundOfTwoParts, RoundsGoOn, RoundsRunToTheEnd};
ghost use Rattle.lio_calculus_runs.specs.RoundLaws.{RunIsBounded, TasksAreAnOrder};
ghost use Rattle.lio_calculus_runs.specs.RoundLaws.{TicketStandsInTheEntry, TurnLowersMeasure};
ghost use Rattle.lio_calculus_runs.specs.LowLaws.{CompleteIsCompleteBelow, LowRoundsGoOn};
ghost use Rattle.lio_calculus_runs.specs.LowLaws.{LowRoundsRunToTheEnd};
ghost use Rattle.lio_calculus_runs.specs.LowLaws.{LowTicketStandsInTheEntry};
ghost use Rattle.lio_calculus_runs.specs.LowLaws.{LowTurnLowersMeasure, RoundsAreErasedRounds};
ghost use Rattle.lio_calculus_runs.specs.LowLaws.{RoundsLookAlike};
ghost use Rattle.lio_calculus_runs.specs.WellFormedLaws.{CallBeginsProcedure};
ghost use Rattle.lio_calculus_runs.specs.WellFormedLaws.{ForkBeginsProcedure, RulesFitCalls};
ghost use Rattle.lio_calculus_runs.specs.WellFormedLaws.{RunIsShort, RunKeepsWellFormed};
ghost use Rattle.lio_calculus_runs.specs.WellFormedLaws.{SpawnBeginsProcedure, TurnAddsNoTurns};
ghost use Rattle.lio_calculus_runs.specs.WellFormedLaws.{TurnKeepsCalls, TurnKeepsWellFormed};

/// The ticket of a turn stands in its entry alone.
pub fn ticket_stands_in_the_entry()
    ensures { TicketStandsInTheEntry }
{}

/// Each turn lowers the measure.
pub fn turn_lowers_measure()
    ensures { TurnLowersMeasure }
{}

/// A run has no more turns than the measure falls.
pub fn run_is_bounded()
    ensures { RunIsBounded }
{}

/// Rounds run to the end.
pub fn rounds_run_to_the_end()
    ensures { RoundsRunToTheEnd }
{}

/// Rounds are a round and, if it moved a task, rounds again.
pub fn rounds_go_on()
    ensures { RoundsGoOn }
{}

/// A round over two orders, one behind the other, is a round over each.
pub fn round_of_two_parts()
    ensures { RoundOfTwoParts }
{}

/// Who moves in a round is some of its order, in its order.
pub fn round_moves_in_order()
    ensures { RoundMovesInOrder }
{}

/// The tasks of a configuration by number are an order of it.
pub fn tasks_are_an_order()
    ensures { TasksAreAnOrder }
{}

/// A round over an order gives the order of the next round.
pub fn round_keeps_the_order()
    ensures { RoundKeepsTheOrder }
{}

/// The ticket of an erased turn stands in its entry alone.
pub fn low_ticket_stands_in_the_entry()
    ensures { LowTicketStandsInTheEntry }
{}

/// Each turn of the erased calculus lowers the measure.
pub fn low_turn_lowers_measure()
    ensures { LowTurnLowersMeasure }
{}

/// Where no task can take a turn, none can in the erased calculus.
pub fn complete_is_complete_below()
    ensures { CompleteIsCompleteBelow }
{}

/// Rounds of the erased calculus are a round and, if it moved a task, rounds again.
pub fn low_rounds_go_on()
    ensures { LowRoundsGoOn }
{}

/// Rounds of the erased calculus run to the end.
pub fn low_rounds_run_to_the_end()
    ensures { LowRoundsRunToTheEnd }
{}

/// Rounds, as an observer sees them, are the rounds of the erased calculus, in their order.
pub fn rounds_are_erased_rounds()
    ensures { RoundsAreErasedRounds }
{}

/// Runs by rounds that begin alike for an observer, with the same contents released, look alike to
/// it.
pub fn rounds_look_alike()
    ensures { RoundsLookAlike }
{}

/// Each turn keeps a configuration well-formed.
pub fn turn_keeps_well_formed()
    ensures { TurnKeepsWellFormed }
{}

/// So does a run.
pub fn run_keeps_well_formed()
    ensures { RunKeepsWellFormed }
{}

/// A turn leaves only calls that fit, in every configuration that has no other ones.
pub fn turn_keeps_calls()
    ensures { TurnKeepsCalls }
{}

/// A turn adds nothing to the turns that are left, in every configuration.
pub fn turn_adds_no_turns()
    ensures { TurnAddsNoTurns }
{}

/// A run from a well-formed configuration has fewer than 2^42 entries.
pub fn run_is_short()
    ensures { RunIsShort }
{}

/// The calls of a script fit whose lines break no rule.
pub fn rules_fit_calls()
    ensures { RulesFitCalls }
{}

/// A call in a well-formed configuration isn't refused for its procedure.
pub fn call_begins_procedure()
    ensures { CallBeginsProcedure }
{}

/// Nor is a fork.
pub fn fork_begins_procedure()
    ensures { ForkBeginsProcedure }
{}

/// Nor is a spawn.
pub fn spawn_begins_procedure()
    ensures { SpawnBeginsProcedure }
{}
