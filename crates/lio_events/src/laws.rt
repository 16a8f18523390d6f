//! The laws of printing and of views. Each function does nothing: its contract is the law.
#![tactic(auto, using(crate::proofs::ViewLaws::view_of_view))]

ghost use Rattle.lio_events.specs.Laws.{ErasedIsPrintable};
ghost use Rattle.lio_events.specs.ViewLaws.{ReleasesAreNamed, ViewIsPrintable, ViewOfView};

/// What can be printed can be printed after erasure too.
pub fn erased_is_printable()
    ensures { ErasedIsPrintable }
{}

/// The view of a view at a lower label is the view at that label.
pub fn view_of_view()
    ensures { ViewOfView }
{}

/// Where each entry of a journal can be printed, so can each entry of a view of it.
pub fn view_is_printable()
    ensures { ViewIsPrintable }
{}

/// Where each entry of a journal can be printed, each principal in what it releases has a name.
pub fn releases_are_named()
    ensures { ReleasesAreNamed }
{}
