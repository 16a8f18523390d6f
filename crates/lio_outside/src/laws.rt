//! Laws of the definitions that contracts cite. Each function does nothing: its contract is the
//! law.
ghost use Rattle.lio_outside.specs.FileMap.{FindsKept, LeavesOthers, FindsNothing, EqualWhereAlike};
ghost use Rattle.lio_outside.specs.Keep.{LeavesFirstPart};
ghost use Rattle.lio_outside.specs.Count.{FailedInPart, RoseInPart, RoseNotAtRest};
ghost use Rattle.lio_outside.specs.Fetch.{MissingInPart};

/// Names among files: what was put under a name is found there, other names keep their bytes,
/// nothing is found among no files, and files that answer alike are the same.
pub fn law_of_files()
    ensures finds_kept { FindsKept }
    ensures leaves_others { LeavesOthers }
    ensures finds_nothing { FindsNothing }
    ensures equal_where_alike { EqualWhereAlike }
{}

/// Counts of faults: one that never falls and rose in a part of the work rose in the whole, a call
/// that failed at the end of a part is the last that failed in the whole, as is the report that a
/// name is missing, and a count that stayed below the greatest number did not rise.
pub fn law_of_counts()
    ensures in_part { RoseInPart }
    ensures failed_in_part { FailedInPart }
    ensures missing_in_part { MissingInPart }
    ensures at_rest { RoseNotAtRest }
{}

/// A refused keep of a store that tells its files: the name has its old bytes, or is absent as
/// before, or has a first part of the new bytes, and the other names stay.
pub fn law_of_refused_keeps()
    ensures { LeavesFirstPart }
{}
