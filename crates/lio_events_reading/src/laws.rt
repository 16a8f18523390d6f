//! The laws of the text of entries. Each function does nothing: its contract is the law.
ghost use Rattle.lio_events_reading.specs.Laws.{LinesAreEntries, TextIsOfOne, TextIsOneLine};

/// Two entries over the names of principals that have one text are equal.
pub fn text_is_of_one()
    ensures { TextIsOfOne }
{}

/// The text of an entry that can be printed is a body without a line end and one line end behind
/// it.
pub fn text_is_one_line()
    ensures { TextIsOneLine }
{}

/// So the text of a journal has as many lines as the journal has entries.
pub fn lines_are_entries()
    ensures { LinesAreEntries }
{}
