//! The law of what a run writes. The function does nothing: its contract is the law.
ghost use Rattle.lio_front.specs.Laws.{OutputsHoldEachFile};

/// Where no file that is written is taken, each channel's file holds exactly that channel's sends,
/// the history's the journal, the view's what is seen, and every other file is as before.
pub fn outputs_hold_each_file()
    ensures { OutputsHoldEachFile }
{}
