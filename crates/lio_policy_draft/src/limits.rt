//! How large a policy of a version may be.
#![tactic(auto, unfolding(crate::specs::Limits::limits_of))]

ghost use Rattle.std.specs.Prelude.{◌≡◌, ◌≤◌};
ghost use Rattle.lio_policy_draft.specs.Limits.{limits_of};

/// How large a policy may be.
#[derive(Clone, Copy, Debug)]
pub struct Limits {
    /// The most bytes of a text.
    pub longest: u64,
    /// The most channels, inputs and tasks, of each.
    pub entries: usize,
    /// The most turns of all tasks.
    pub turns: u64,
    /// The most cells of all tasks.
    pub cells: u64,
    /// How deep an argument may be: a list is deeper by one than its deepest item.
    pub depth: u64,
}

/// The limits of a version; they are those of the first version but for the second.
pub fn limits_of(version: u64) -> Limits
    ensures limits { result ≡ limits_of version }
    ensures short { result.longest ≤ 262144 }
    ensures few { result.entries ≤ 1024 }
    ensures small { (result.turns ≤ 4194304) × (result.cells ≤ 262144) }
    ensures shallow { result.depth ≤ 8 }
{
    if version == 2 {
        Limits {
            longest: 262_144,
            entries: 1_024,
            turns: 4_194_304,
            cells: 262_144,
            depth: 8,
        }
    } else {
        Limits {
            longest: 65_536,
            entries: 256,
            turns: 1_048_576,
            cells: 65_536,
            depth: 0,
        }
    }
}
