//! What a call is to run, and which files it writes.

use lio_front::Command;
use lio_labels::Label;
use lio_start::Job;

/// What is run, and the observer of its view, where one is asked for.
#[derive(Drop)]
pub struct Loaded {
    pub job: Job,
    pub observer: Option<Label>,
}

/// How the turns of a run are taken.
#[derive(Drop)]
pub enum Way {
    /// The tasks take turns in rounds.
    InRounds,
    /// So many workers take the turns, in whatever order they come to them: 1 to 64.
    ByWorkers(u32),
    /// As these bytes tell, which have to be the history of a run.
    AsTold(Vec<u8>),
}

/// What is run, the command that asks for it, the observer of its view, where one is asked for, and
/// how the turns are taken.
#[derive(Drop)]
pub struct Order<'a> {
    pub job: Job,
    pub command: Command<'a>,
    pub observer: Option<Label>,
    pub way: Way,
}
