//! The laws of histories. Each function does nothing: its contract is the law.
ghost use Rattle.lio_audit.specs.Laws.{HistoryIsOfOneRun, HistoryStopsNowhere, StopsAtOneLine};

/// Bytes are the history of one complete run at most.
pub fn history_is_of_one_run()
    ensures { HistoryIsOfOneRun }
{}

/// Where they are one, they stop at no line.
pub fn history_stops_nowhere()
    ensures { HistoryStopsNowhere }
{}

/// Where they are none, they stop at one line at most.
pub fn stops_at_one_line()
    ensures { StopsAtOneLine }
{}
