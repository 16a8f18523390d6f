//! What is known of each policy that a program has, and the laws of what a policy lets flow.
//! Each function but the first does nothing: its contract is the law.
ghost use Rattle.lio_policy.specs.FlowLaws.{FlowsToItselfRaised, FlowsToRaised, MayFlowIsExact};
ghost use Rattle.lio_policy.specs.FlowLaws.{NeverIsAbove, PrivilegesCompose, RaisedIsGreatest};
ghost use Rattle.lio_policy.specs.FlowLaws.{RaisedIsLabel};
ghost use Rattle.lio_policy.specs.Policy.{IsPolicy};

use crate::policy::Policy;

/// A policy keeps the rules on names, labels, flow, arguments, limits and files.
pub fn policy_keeps_rules(policy: &Policy)
    ensures { IsPolicy policy.now }
{
    let _ = &policy.longest;
}

/// What flows to a label with a privilege is exactly what flows to the label as the privilege
/// raises it.
#[tactic(auto, using(crate::proofs::FlowLemmas::flows_to_raised))]
pub fn flows_to_raised()
    ensures { FlowsToRaised }
{}

/// A label flows to itself as a privilege raises it.
#[tactic(auto, using(crate::proofs::FlowLemmas::flows_to_itself_raised))]
pub fn flows_to_itself_raised()
    ensures { FlowsToItselfRaised }
{}

/// A label as a privilege raises it is the greatest that flows to it with the privilege.
pub fn raised_is_greatest()
    ensures { RaisedIsGreatest }
{}

/// A label as a privilege raises it is a label where it is not wide.
pub fn raised_is_label()
    ensures { RaisedIsLabel }
{}

/// None of some privileges lets anything flow from above a label as all together raise it to below
/// it.
#[tactic(auto, using(crate::proofs::FlowLemmas::privileges_compose))]
pub fn privileges_compose()
    ensures { PrivilegesCompose }
{}

/// Each answer of what may flow says exactly what flows, by the labels and by all privileges of the
/// policy together.
#[tactic(auto, using(crate::proofs::FlowLemmas::may_flow_is_exact))]
pub fn may_flow_is_exact()
    ensures { MayFlowIsExact }
{}

/// What never flows to a channel doesn't flow to its label as the policy's privileges raise it.
#[tactic(auto, using(crate::proofs::FlowLemmas::never_is_above))]
pub fn never_is_above()
    ensures { NeverIsAbove }
{}
