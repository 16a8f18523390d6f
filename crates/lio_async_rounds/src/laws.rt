//! What the future gives and the stream yields of a machine that was just made. Each function does
//! nothing: its contract is the law.
ghost use Rattle.lio_async_rounds.specs.Laws.{FuturesGiveTheRun, StreamsYieldTheView};

/// What the future gives of a machine that has taken no turn is the run of its rounds.
pub fn futures_give_the_run()
    ensures { FuturesGiveTheRun }
{}

/// What the stream yields of a machine that has taken no turn, where no memory is wanting, is what
/// the observer sees of the journal of its rounds, and what the erased calculus's own rounds give.
pub fn streams_yield_the_view()
    ensures { StreamsYieldTheView }
{}
