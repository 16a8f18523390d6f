//! Why a task of a policy can't begin.
use thiserror::Error;

/// Why a task of a policy can't begin, with its place in the policy, from 0.
#[derive(Debug, Clone, Copy, PartialEq, Eq, Error)]
pub enum StartFault {
    /// The script has no procedure with the name that the task gives.
    #[error("task {0} names a procedure that the script doesn't have")]
    NoProc(u32),
    /// The procedure has another number of parameters than the task has arguments.
    #[error("task {0} has another number of arguments than its procedure has parameters")]
    Arity(u32),
}
