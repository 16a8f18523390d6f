//! The laws of logs. Each function does nothing: its contract is the law.
ghost use Rattle.lio_calculus.specs.LogLaws.{LocalEntriesMakeARun, LogsHaveAMerge};
ghost use Rattle.lio_calculus.specs.LogLaws.{LogsHaveOneMerge, PartsMergeToTheJournal};
ghost use Rattle.lio_calculus.specs.LogLaws.{PartsOfAJournalAreLogged};

/// Logs whose entries are each local have a merge, which is a run and leads to the folds of the
/// logs.
pub fn local_entries_make_a_run()
    ensures { LocalEntriesMakeARun }
{}

/// The parts of a numbered journal whose entries are each local are such logs.
pub fn parts_of_a_journal_are_logged()
    ensures { PartsOfAJournalAreLogged }
{}

/// Logs in which each ticket below a number stands in one entry have a merge.
pub fn logs_have_a_merge()
    ensures { LogsHaveAMerge }
{}

/// Logs have one merge at most.
pub fn logs_have_one_merge()
    ensures { LogsHaveOneMerge }
{}

/// The parts of a numbered journal can be merged, and it is their merge.
pub fn parts_merge_to_the_journal()
    ensures { PartsMergeToTheJournal }
{}
