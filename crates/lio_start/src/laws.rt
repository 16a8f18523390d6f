//! The laws of the start. Each function does nothing: its contract is the law.
ghost use Rattle.lio_start.specs.Laws.{CellsStandInOrder, EachTaskBegins, EachTaskFits};
ghost use Rattle.lio_start.specs.Laws.{FaultIsOfFirst, LiteralsAreSaid, ReleasesAreOfPolicy};
ghost use Rattle.lio_start.specs.Laws.{RunsArePrintable, StartIsSound, StartIsWellFormed};
ghost use Rattle.lio_start.specs.Laws.{StartNamesOnly, StartsLookAlike, TextsAreShort};

/// Nothing is wrong exactly where each task can begin.
#[tactic(auto, using(crate::proofs::LawLemmas::each_task_fits))]
pub fn each_task_fits()
    ensures { EachTaskFits }
{}

/// A fault is that of the first task that can't begin.
#[tactic(auto, using(crate::proofs::LawLemmas::fault_is_of_first))]
pub fn fault_is_of_first()
    ensures { FaultIsOfFirst }
{}

/// What each script keeps of its lines: the literals in its statements are values that a word can
/// say.
#[tactic(auto, using(crate::proofs::LawLemmas::literals_are_said))]
pub fn literals_are_said()
    ensures { LiteralsAreSaid }
{}

/// Each first configuration is sound.
pub fn start_is_sound()
    ensures { StartIsSound }
{}

/// And it is well-formed, where the script's lines break no rule.
pub fn start_is_well_formed()
    ensures { StartIsWellFormed }
{}

/// The channels, the jobs of the tasks and the tasks' ranges have their numbers in the policy's
/// order.
pub fn cells_stand_in_order()
    ensures { CellsStandInOrder }
{}

/// Where all tasks fit each begins its procedure, with an argument for each parameter.
pub fn each_task_begins()
    ensures { EachTaskBegins }
{}

/// No task begins with a text that is longer than texts may be.
#[tactic(auto, using(crate::proofs::LawLemmas::texts_are_short))]
pub fn texts_are_short()
    ensures { TextsAreShort }
{}

/// What an observer sees of a first configuration goes by the texts of the inputs below it alone.
#[tactic(auto, using(crate::proofs::AlikeLemmas::starts_look_alike))]
pub fn starts_look_alike()
    ensures { StartsLookAlike }
{}

/// Each release of a policy's run is by a privilege that the policy gives a task.
pub fn releases_are_of_policy()
    ensures { ReleasesAreOfPolicy }
{}

/// The first configuration of a policy and a script over its principals names only these, whatever
/// the inputs are.
pub fn start_names_only()
    ensures { StartNamesOnly }
{}

/// The journal of a policy's run can be printed over the policy's principals.
pub fn runs_are_printable()
    ensures { RunsArePrintable }
{}
