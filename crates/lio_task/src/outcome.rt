//! What a turn came to, by its entry: the task that was born, the task that ended.
ghost use Rattle.std.specs.Prelude.{◌≡◌};
ghost use Rattle.lio_calculus_runs.specs.Round as round;
ghost use Rattle.lio_task.specs.Outcome.{born_at, ended_in, listed};

use lio_values::{Act, Entry};

/// The number of the task to which a turn gave birth, by its entry.
pub fn born_in(entry: &Entry) -> Option<u32>
    ensures child { result ≡ born_at entry.now.act entry.now.target }
    ensures born { listed result ≡ round.born_in entry.now }
{
    match entry.act {
        Act::Fork(_) => entry.target,
        Act::Spawn(_) => entry.target,
        _ => None,
    }
}

/// The number of the task that a turn ended, by its entry.
pub fn ended_in(entry: &Entry) -> Option<u32>
    ensures { result ≡ ended_in entry.now }
{
    match entry.act {
        Act::Ended(_) => Some(entry.actor),
        _ => None,
    }
}
