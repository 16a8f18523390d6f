//! The laws of views of runs. Each function does nothing: its contract is the law.
ghost use Rattle.lio_audit.specs.RunLaws.{CompleteRunIsSeen, RoundsAreRerun, ViewReleasesTheSame};

/// What the view of a run releases to its observer is what the run releases to it.
pub fn view_releases_the_same()
    ensures { ViewReleasesTheSame }
{}

/// The text of the view of a complete run is a view, where it isn't too long.
pub fn complete_run_is_seen()
    ensures { CompleteRunIsSeen }
{}

/// The observer of a run by rounds computes its view from what the run releases to it.
pub fn rounds_are_rerun()
    ensures { RoundsAreRerun }
{}
