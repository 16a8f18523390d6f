//! The laws of the rule. Each function does nothing: its contract is the law.
ghost use Rattle.lio_table.specs.Laws.{ClaimKeepsTheRule, TicketKeepsTheRule};
ghost use Rattle.lio_table.specs.Laws.{GiveKeepsTheRule, SplitKeepsTheRule};
ghost use Rattle.lio_table.specs.Laws.{JoinKeepsTheRule, FreshTableMeetsTheRule};
ghost use Rattle.lio_table.specs.Laws.{ClosedTableHasRun, LookKeepsTheRule};
ghost use Rattle.lio_table.specs.Laws.{LogsAreLogged, SeatsNodesStand};
ghost use Rattle.lio_table.specs.Laws.{RunsAreTurns, StepsLeaveTheJournal, TicketAddsItsEntry};
ghost use Rattle.lio_table.specs.Closing.{ClosedTableIsWellFormed, TableIsWellFormed};

/// A claim keeps the rule.
pub fn claim_keeps_the_rule()
    ensures { ClaimKeepsTheRule }
{}

/// A ticket that is drawn for a turn keeps the rule.
pub fn ticket_keeps_the_rule()
    ensures { TicketKeepsTheRule }
{}

/// A node that is given back keeps the rule.
pub fn give_keeps_the_rule()
    ensures { GiveKeepsTheRule }
{}

/// A look at word 0 keeps the rule.
pub fn look_keeps_the_rule()
    ensures { LookKeepsTheRule }
{}

/// A seat that is cut in two keeps the rule.
pub fn split_keeps_the_rule()
    ensures { SplitKeepsTheRule }
{}

/// Two seats that are made one keep the rule.
pub fn join_keeps_the_rule()
    ensures { JoinKeepsTheRule }
{}

/// A claim, a node that is given back, a look, a split and a join leave the journal as it was.
pub fn steps_leave_the_journal()
    ensures { StepsLeaveTheJournal }
{}

/// A ticket adds the entry of its turn to the journal, and nothing else.
pub fn ticket_adds_its_entry()
    ensures { TicketAddsItsEntry }
{}

/// At each moment the logs of all nodes, as slots and seats' views have them, are logs of turns
/// from where the table began, and the journal is their merge.
pub fn logs_are_logged()
    ensures { LogsAreLogged }
{}

/// At each moment the nodes that a seat holds are cells of a sound configuration.
pub fn seats_nodes_stand()
    ensures { SeatsNodesStand }
{}

/// A table that begins with a sound configuration and empty logs meets the rule.
pub fn fresh_table_meets_the_rule()
    ensures { FreshTableMeetsTheRule }
{}

/// A table that is closed by the seat with all tickets has run from where it began.
pub fn closed_table_has_run()
    ensures { ClosedTableHasRun }
{}

/// Each run from a sound configuration is a journal that the rule allows.
pub fn runs_are_turns()
    ensures { RunsAreTurns }
{}

/// A table that began with a well-formed configuration stands for a well-formed one at each moment.
pub fn table_is_well_formed()
    ensures { TableIsWellFormed }
{}

/// A table that began with a well-formed configuration is closed with a well-formed one.
pub fn closed_table_is_well_formed()
    ensures { ClosedTableIsWellFormed }
{}
