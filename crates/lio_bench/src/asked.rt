//! What the words of the program ask for.
use crate::journals::{look_times, print_times};
use crate::labels::LabelWork;
use crate::merges::merge_times;
use crate::policies::read_file_times;
use crate::turns::{Side, count_times};
use lio_outside::Store;
use std::alloc::Global;

/// What is repeated, and how often.
#[derive(Drop)]
pub enum Asked<'w> {
    /// An operation on labels.
    Labels(LabelWork),
    /// The reading of the policy in a file.
    Policy(&'w [u8], u32),
    /// The printing of a journal of so many entries.
    Print(u32, u32),
    /// What everyone sees of a journal of so many entries, and what is released to everyone.
    Look(u32, u32),
    /// Turns of a task that counts.
    Count(Side, u32),
    /// A run of the task to its end, and merges of its logs.
    Merge(u32),
}

impl<'w> Asked<'w> {
    /// What three words say: the operation, its subject, and how often. The subject is a file for
    /// `policy`, the number of entries for `print` and `look`, `whole` or `erased` for `count`,
    /// `logs` for `merge`, and for an operation on labels the clauses of each part, at most 64.
    pub fn of_words(words: &'w [String]) -> Option<Asked<'w>> {
        let [operation, subject, times] = words else {
            return None;
        };
        let times = times.as_str().parse::<u32>().ok()?;
        match operation.as_str() {
            "policy" => Some(Asked::Policy(subject.as_bytes(), times)),
            "print" => Some(Asked::Print(subject.as_str().parse::<u32>().ok()?, times)),
            "look" => Some(Asked::Look(subject.as_str().parse::<u32>().ok()?, times)),
            "count" => Some(Asked::Count(Side::of_name(subject.as_str())?, times)),
            "merge" if subject.as_str() == "logs" => Some(Asked::Merge(times)),
            name => {
                let clauses = subject.as_str().parse::<u32>().ok()?;
                Some(Asked::Labels(LabelWork::new(name, clauses, times)?))
            }
        }
    }

    /// Whether it was done.
    pub fn is_done<S: Store>(&self, alloc: Global, store: &mut S) -> bool {
        match self {
            Asked::Labels(work) => work.run(alloc).is_ok(),
            Asked::Policy(name, times) => read_file_times(alloc, store, name, *times).is_ok(),
            Asked::Print(entries, times) => print_times(alloc, *entries, *times).is_ok(),
            Asked::Look(entries, times) => look_times(alloc, *entries, *times).is_ok(),
            Asked::Count(side, times) => count_times(alloc, side, *times).is_ok(),
            Asked::Merge(times) => merge_times(alloc, *times).is_ok(),
        }
    }
}
