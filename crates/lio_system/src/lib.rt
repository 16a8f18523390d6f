//! The outside of the host as the system has it: a store over its files, of which none is written
//! under two names, and standard output.
#![tactic(auto)]

mod disk;
mod disk_store;
mod known;
mod pieces;
mod real_disk;
mod real_say;
mod real_store;

pub use disk::{About, Access, Disk, FileKind, Opened};
pub use disk_store::DiskStore;
pub use known::FileNumber;
pub use real_say::RealSay;
pub use real_store::RealStore;
