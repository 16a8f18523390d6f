//! How a call ended.

ghost use Rattle.std.specs.Prelude.{◌≡◌};

use lio_front::Status;
use std::fmt;

/// How a call ended: as calls of the other programs do, or, where the question was answered and
/// said, with a task that failed or waits for ever.
#[derive(Debug, PartialEq, Drop)]
pub enum Answer {
    /// An answer that the other programs give too.
    Plain(Status),
    /// The question was answered, and that was said: a task failed or waits for ever.
    Troubled,
}

impl Answer {
    ghost use Rattle.lio_ask_main.specs.Answers.{answer_by, exit_number};

    /// The answer where a question was answered and that was said, by whether a task failed or
    /// waits for ever.
    pub(crate) fn by(troubled: bool) -> Answer
        ensures { result ≡ answer_by troubled }
    {
        if troubled {
            Answer::Troubled
        } else {
            Answer::Plain(Status::Done)
        }
    }

    /// The exit status of the program that ends with the answer.
    pub fn number(&self) -> u8
        ensures { result ≡ exit_number self.now }
    {
        match self {
            Answer::Plain(status) => status.number(),
            Answer::Troubled => 13,
        }
    }
}

impl fmt::Display for Answer {
    fn fmt<W: fmt::Write>(&self, f: &mut fmt::Formatter<W>) -> fmt::Result {
        match self {
            Answer::Plain(status) => write!(f, "{status}"),
            Answer::Troubled => f.write_str("Troubled"),
        }
    }
}
