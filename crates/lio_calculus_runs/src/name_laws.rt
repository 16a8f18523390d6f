//! The laws of the principals and of the privileges of runs. Each function does nothing: its
//! contract is the law.
ghost use Rattle.lio_calculus_runs.specs.NameLaws.{ErasedNamesOnly, LowTurnNamesOnly};
ghost use Rattle.lio_calculus_runs.specs.NameLaws.{ReleasesArePrintable, RunNamesOnly};
ghost use Rattle.lio_calculus_runs.specs.NameLaws.{TurnNamesOnly};
ghost use Rattle.lio_calculus_runs.specs.PowerLaws.{RunReleasesByPowers};

/// A turn names no principal that nothing named before it.
pub fn turn_names_only()
    ensures { TurnNamesOnly }
{}

/// Nor does a run.
pub fn run_names_only()
    ensures { RunNamesOnly }
{}

/// What an observer sees of a configuration names no more than the configuration.
pub fn erased_names_only()
    ensures { ErasedNamesOnly }
{}

/// A turn of the erased calculus names no principal that nothing named before it.
pub fn low_turn_names_only()
    ensures { LowTurnNamesOnly }
{}

/// What a journal that can be printed releases to an observer can be printed.
pub fn releases_are_printable()
    ensures { ReleasesArePrintable }
{}

/// A run from a sound configuration releases and exposes by the privileges in it alone, and each
/// release and each exposure that it carries out is one that the privilege allows.
pub fn run_releases_by_powers()
    ensures { RunReleasesByPowers }
{}
