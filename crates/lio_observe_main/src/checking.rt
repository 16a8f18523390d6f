//! The check of a view.

ghost use Rattle.std.specs.Prelude.{IfOk, IfErr};
ghost use Rattle.lio_observe_main.specs.Answers.{StopsTheCheck};
ghost use Rattle.lio_observe_main.specs.Claim.{IsRight, claim_of};

use crate::claim::Claim;
use lio_audit::{ViewFault, check_view, low_start_of};
use lio_front::Status;
use std::alloc::Global;

/// Checks the view of a claim, and gives the number of its lines.
pub(crate) fn check_claim(alloc: Global, claim: &Claim) -> Result<u32, Status>
    ensures ok { IfOk result (IsRight (claim_of claim.now)) }
    ensures err { IfErr result (StopsTheCheck (claim_of claim.now)) }
{
    let start = low_start_of(alloc, &claim.job, &claim.observer)?;
    let policy = claim.job.policy();
    let script = claim.job.script();
    let view = claim.view.as_slice();
    match check_view(
        alloc,
        start,
        &claim.observer,
        script,
        policy.longest,
        view,
        &policy.names,
    ) {
        Ok(lines) => Ok(lines),
        Err(ViewFault::NotAView(line)) => Err(Status::NotAView(line)),
        Err(ViewFault::NoMemory) => Err(Status::NoMemory),
    }
}
