//! The laws of labels, of flow, of bounds, and of flow with a privilege. Each function does
//! nothing: its contract is the law.
#![tactic(auto, using(crate::proofs::AllLaws::laws))]

ghost use Rattle.lio_labels.specs.Laws.{AllFlowToGreatest, DowngradedFlowsBack, DowngradedIsLabel};
ghost use Rattle.lio_labels.specs.Laws.{DowngradedIsLeast, FlowIsAntisymmetric, FlowIsReflexive};
ghost use Rattle.lio_labels.specs.Laws.{FlowIsTested, FlowIsTransitive, FlowIsWithPrivilege};
ghost use Rattle.lio_labels.specs.Laws.{FlowThenPrivilege, FlowsToDowngraded, JoinIsLabel};
ghost use Rattle.lio_labels.specs.Laws.{JoinIsLeast, JoinWithAbove};
ghost use Rattle.lio_labels.specs.Laws.{LeastFlowsToAll, LeftFlowsToJoin, MeetFlowsToLeft};
ghost use Rattle.lio_labels.specs.Laws.{MeetFlowsToRight, MeetIsGreatest, MeetIsLabel};
ghost use Rattle.lio_labels.specs.Laws.{MeetWithAbove, PrivilegeGrows, PrivilegeIsTested};
ghost use Rattle.lio_labels.specs.Laws.{PrivilegeThenFlow, RightFlowsToJoin, TruePrivilegeIsFlow};
ghost use Rattle.lio_labels.specs.IsLabel.{IsLabel};
ghost use Rattle.lio_labels.specs.LabelPrint.{DowngradedIsNamed, JoinIsNamed, MeetIsNamed};
ghost use Rattle.lio_labels.specs.LabelPrint.{ReadsPrinted};
ghost use Rattle.lio_labels.specs.LabelText.{DerivedIsRead, ReadIsDerived};

use crate::label::Label;

/// Each label that a program has is canonical and not wide.
pub fn label_is_canonical(label: &Label)
    ensures { IsLabel label.now }
{
    let _secrecy = label.secrecy.clauses();
    let _integrity = label.integrity.clauses();
}

/// The test of flow and flow over all sets of principals agree.
pub fn flow_is_tested()
    ensures { FlowIsTested }
{}

/// A label flows to itself.
pub fn flow_is_reflexive()
    ensures { FlowIsReflexive }
{}

/// A label flows where a label flows to which it flows.
pub fn flow_is_transitive()
    ensures { FlowIsTransitive }
{}

/// Labels that flow to each other are equal.
pub fn flow_is_antisymmetric()
    ensures { FlowIsAntisymmetric }
{}

/// A label flows to its join with another.
pub fn left_flows_to_join()
    ensures { LeftFlowsToJoin }
{}

/// A label flows to another label's join with it.
pub fn right_flows_to_join()
    ensures { RightFlowsToJoin }
{}

/// The join flows to each label that both labels flow to.
pub fn join_is_least()
    ensures { JoinIsLeast }
{}

/// The meet of a label with another flows to it.
pub fn meet_flows_to_left()
    ensures { MeetFlowsToLeft }
{}

/// The meet of another label with a label flows to it.
pub fn meet_flows_to_right()
    ensures { MeetFlowsToRight }
{}

/// Each label that flows to both labels flows to their meet.
pub fn meet_is_greatest()
    ensures { MeetIsGreatest }
{}

/// The join of labels is a label where it is not wide.
pub fn join_is_label()
    ensures { JoinIsLabel }
{}

/// The meet of labels is a label where it is not wide.
pub fn meet_is_label()
    ensures { MeetIsLabel }
{}

/// The join of a label with one that it flows to is that one.
pub fn join_with_above()
    ensures { JoinWithAbove }
{}

/// The meet of a label with one that it flows to is that label.
pub fn meet_with_above()
    ensures { MeetWithAbove }
{}

/// The least label flows to each label.
pub fn least_flows_to_all()
    ensures { LeastFlowsToAll }
{}

/// Each label flows to the greatest label.
pub fn all_flow_to_greatest()
    ensures { AllFlowToGreatest }
{}

/// The test of flow with a privilege and flow with a privilege over all sets of principals agree.
pub fn privilege_is_tested()
    ensures { PrivilegeIsTested }
{}

/// What flows with a privilege flows with each privilege that implies it.
pub fn privilege_grows()
    ensures { PrivilegeGrows }
{}

/// With the privilege True, flow with a privilege is flow.
pub fn true_privilege_is_flow()
    ensures { TruePrivilegeIsFlow }
{}

/// What flows, flows with each privilege.
pub fn flow_is_with_privilege()
    ensures { FlowIsWithPrivilege }
{}

/// Flow followed by flow with a privilege is flow with that privilege.
pub fn flow_then_privilege()
    ensures { FlowThenPrivilege }
{}

/// Flow with a privilege followed by flow is flow with that privilege.
pub fn privilege_then_flow()
    ensures { PrivilegeThenFlow }
{}

/// As a privilege lowers it, a label flows back to itself.
pub fn downgraded_flows_back()
    ensures { DowngradedFlowsBack }
{}

/// A label flows with a privilege to itself as the privilege lowers it.
pub fn flows_to_downgraded()
    ensures { FlowsToDowngraded }
{}

/// As a privilege lowers it, a label flows to each label that it flows to with the privilege.
pub fn downgraded_is_least()
    ensures { DowngradedIsLeast }
{}

/// A label as a privilege lowers it is a label where it is not wide.
pub fn downgraded_is_label()
    ensures { DowngradedIsLabel }
{}

/// The principals of a label as a privilege lowers it have names where those of the label and of
/// the privilege have.
pub fn downgraded_is_named()
    ensures { DowngradedIsNamed }
{}

/// The principals of a join have names where those of both labels have.
pub fn join_is_named()
    ensures { JoinIsNamed }
{}

/// The principals of a meet have names where those of both labels have.
pub fn meet_is_named()
    ensures { MeetIsNamed }
{}

/// What is read is the canonical form of formulas whose text is of the grammar.
pub fn read_is_derived()
    ensures { ReadIsDerived }
{}

/// What is of the grammar, with formulas that are canonical and not wide, is read.
pub fn derived_is_read()
    ensures { DerivedIsRead }
{}

/// What is printed is read as the same label, over the same names.
pub fn printed_is_read()
    ensures { ReadsPrinted }
{}
