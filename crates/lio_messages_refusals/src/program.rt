//! The programs.

/// A program that tells of a refusal.
#[derive(Clone, Copy, PartialEq, Eq)]
pub enum Program {
    /// The host.
    Host,
    /// The host over futures.
    Futures,
    /// The observer's check.
    Observer,
    /// The answers to questions.
    Questions,
}

impl Program {
    /// Its name, as the command line has it.
    pub(crate) fn name(self) -> &'static str {
        match self {
            Program::Host => "lio_host",
            Program::Futures => "lio_async",
            Program::Observer => "lio_observe",
            Program::Questions => "lio_ask",
        }
    }

    /// What its words are to be.
    pub(crate) fn usage(self) -> &'static str {
        match self {
            Program::Host => {
                "usage: lio_host POLICY SCRIPT [--workers COUNT | --check FILE] [--history FILE] [--view FILE --observer LABEL]\n       lio_host --make N [--workers COUNT | --check FILE] [--history FILE] [--view FILE --observer LABEL]\n  POLICY, SCRIPT and FILE are names of files, LABEL is a label over the policy's principals, N is 1 to 256, COUNT is 1 to 64; no word is empty or begins with `-` but `--` and the options"
            }
            Program::Futures => {
                "usage: lio_async POLICY SCRIPT [VIEW LABEL]\n  POLICY, SCRIPT and VIEW are names of files, LABEL is the observer's label over the policy's principals; no word is empty or begins with `-`"
            }
            Program::Observer => {
                "usage: lio_observe POLICY SCRIPT VIEW LABEL\n  POLICY, SCRIPT and VIEW are names of files, LABEL is the observer's label over the policy's principals; no word is empty or begins with `-`"
            }
            Program::Questions => {
                "usage: lio_ask explain POLICY [--json]\n       lio_ask check POLICY SCRIPT\n       lio_ask audit POLICY SCRIPT HISTORY\n       lio_ask lines POLICY SCRIPT HISTORY\n       lio_ask help\n       lio_ask version\n  POLICY, SCRIPT and HISTORY are names of files; no name is empty or begins with `-`"
            }
        }
    }
}
