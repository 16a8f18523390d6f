//! The texts of a policy and of a script, as they were read.

ghost use Rattle.std.specs.Prelude.{◌≡◌, None};

/// The bytes of the policy and of the script as far as they were fetched, of each at most one byte
/// more than it may have.
#[derive(Debug, Drop)]
pub struct Texts {
    /// The bytes of the policy, where they were fetched.
    pub policy: Option<Vec<u8>>,
    /// The bytes of the script, where they were fetched.
    pub script: Option<Vec<u8>>,
}

impl Texts {
    /// Nothing was fetched so far.
    pub fn none() -> Self
        ensures policy { result.policy ≡ None }
        ensures script { result.script ≡ None }
    {
        Texts {
            policy: None,
            script: None,
        }
    }
}
