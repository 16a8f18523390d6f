//! The laws of scripts. Each function does nothing: its contract is the law.
#![tactic(auto, using(crate::proofs::AllLaws::laws))]

ghost use Rattle.lio_syntax.specs.Closing.{EndIsBehindBlock};
ghost use Rattle.lio_syntax.specs.Laws.{PlacedLinesAreOfScripts, TextHasOneScript};

/// A text is that of one script.
pub fn text_has_one_script()
    ensures { TextHasOneScript }
{}

/// Lines stand where they can, with nothing open behind them, exactly where they are the lines of a
/// script.
pub fn placed_lines_are_of_scripts()
    ensures { PlacedLinesAreOfScripts }
{}

/// Behind the line at which a block ends stands what stands behind the block.
pub fn end_is_behind_block()
    ensures { EndIsBehindBlock }
{}
