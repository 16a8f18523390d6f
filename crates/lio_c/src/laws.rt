//! The law of netstrings. The function does nothing: its contract is the law.
ghost use Rattle.lio_c.specs.Laws.{AreOfOneList};

/// Bytes are the netstrings of no two lists of items: so the words and files of a call are those of
/// its bytes alone.
pub fn netstrings_are_of_one_list()
    ensures { AreOfOneList }
{}
