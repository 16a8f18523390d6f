//! What workers tell of their turns.

/// What a worker tells of each turn that it took. Implement it to follow, or to hold up, the
/// workers.
pub trait Gate {
    /// A worker has taken the turn of task `k` with this ticket. Each turn of a worker is told
    /// once, before the task is tried again; the turns that are left when the workers end aren't
    /// told.
    fn pass(&self, k: u32, ticket: u64);
}

/// A gate at which nobody stops.
#[derive(Debug, Clone, Copy, PartialEq, Eq)]
pub struct OpenGate;

impl Gate for OpenGate {
    fn pass(&self, _k: u32, _ticket: u64) {}
}
