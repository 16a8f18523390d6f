//! The reading of a policy, repeated.
ghost use Rattle.std.specs.Prelude.{◌≡◌, ◌<◌, ◌⊎◌, Err, IfErr, IsOk, OnOk};
ghost use Rattle.lio_policy.specs.Verdict.{policy_of};

use lio_outside::{FetchFault, Store};
use lio_policy::read_policy;
use lio_policy_draft::PolicyFault;
use std::alloc::Global;

/// The most bytes of a policy.
const MOST_BYTES: u32 = 1_048_576;

/// Why a policy's file was not read.
#[derive(Debug, Drop)]
pub enum ReadFault {
    Fetch(FetchFault),
    Policy(PolicyFault),
}

/// Reads a policy so many times. It is one, unless it is read no time.
fn read_times(alloc: Global, bytes: &[u8], times: u32) -> Result<(), PolicyFault>
    ensures ok { OnOk result (0 < times → IsOk (policy_of bytes.now)) }
    ensures fault { IfErr result (λ fault. (fault ≡ PolicyFault.NoMemory)
        ⊎ (policy_of bytes.now ≡ Err fault)) }
{
    for _ in 0..times {
        let _policy = read_policy(alloc, bytes)?;
    }
    Ok(())
}

/// Reads the policy in a file so many times.
pub fn read_file_times<S: Store>(
    alloc: Global,
    store: &mut S,
    name: &[u8],
    times: u32,
) -> Result<(), ReadFault> {
    let bytes = match store.fetch(alloc, name, MOST_BYTES) {
        Ok(bytes) => bytes,
        Err(fault) => return Err(ReadFault::Fetch(fault)),
    };
    match read_times(alloc, bytes.as_slice(), times) {
        Ok(()) => Ok(()),
        Err(fault) => Err(ReadFault::Policy(fault)),
    }
}
