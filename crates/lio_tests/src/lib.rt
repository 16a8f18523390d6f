//! What only a run shows of the stores, the outputs and the queue: files of the system under two
//! names, calls that fail by their numbers, a number that goes in and comes out.
#![tactic(auto)]

#[cfg(test)]
mod check;
#[cfg(test)]
mod disk;
#[cfg(test)]
mod fake_disk;
#[cfg(test)]
mod files;
#[cfg(test)]
mod folder;
#[cfg(test)]
mod full_output;
#[cfg(test)]
mod modes;
#[cfg(test)]
mod outputs;
#[cfg(test)]
mod queue;
#[cfg(test)]
mod stores;
