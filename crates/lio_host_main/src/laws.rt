//! The law of views. The function does nothing: its contract is the law.
ghost use Rattle.lio_host_main.specs.Laws.{ViewFilesAreAlike};

/// What is written under `--view` is a function of what its observer sees: of the data below it and
/// of what is released to it.
pub fn view_files_are_alike()
    ensures { ViewFilesAreAlike }
{}
