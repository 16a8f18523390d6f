//! What a program did with a case.

use lio_clauses::NoMemory;
use lio_front::Status;
use std::alloc::Global;

/// What a program did with a case.
#[derive(Drop)]
pub(crate) struct Found {
    /// The answer as its type writes it.
    pub status: String,
    /// The exit status of the program.
    pub number: u8,
    /// What is printed of the answer on standard error.
    pub says: String,
    /// The notes on the run.
    pub notes: String,
    /// What was said.
    pub said: Vec<u8>,
    /// Whether something may be said of which the case doesn't speak.
    pub may_say: bool,
    /// How many turns were taken.
    pub entries: u64,
    /// What is told of a future, a stream, or a table.
    pub tells: String,
    /// What a gate was told.
    pub gate: GateTold,
    /// What else the second call did than to say the same, where there was one.
    pub again: Option<String>,
    /// What else the host does by the words that ask it for the same, where it does something else.
    pub host: Option<String>,
    /// The history that the host writes then.
    pub journal: Vec<u8>,
}

/// What a gate was told.
#[derive(Drop)]
pub(crate) struct GateTold {
    /// How many turns, if each ticket below that number was told once.
    pub turns: String,
    /// Of which tasks.
    pub tasks: String,
    /// Whether another worker came while the first was held.
    pub comes: bool,
}

impl Found {
    /// What an answer comes to, which has a number; nothing else is known yet.
    pub fn new(alloc: Global, status: String, number: u8) -> Found {
        Found {
            status,
            number,
            says: String::new(alloc),
            notes: String::new(alloc),
            said: Vec::new(alloc),
            may_say: false,
            entries: 0,
            tells: String::new(alloc),
            gate: GateTold {
                turns: String::new(alloc),
                tasks: String::new(alloc),
                comes: false,
            },
            again: None,
            host: None,
            journal: Vec::new(alloc),
        }
    }

    /// What an answer comes to in whose place no run was made.
    pub fn refused(alloc: Global, status: Status) -> Result<Found, NoMemory> {
        let number = status.number();
        let text = format!(in alloc; "{status}");
        drop(status);
        Ok(Found::new(alloc, text?, number))
    }

    /// What is told of a run that was made.
    pub fn told(alloc: Global, tells: String) -> Result<Found, NoMemory> {
        let mut found = Found::refused(alloc, Status::Done)?;
        found.tells = tells;
        Ok(found)
    }
}
