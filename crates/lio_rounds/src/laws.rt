//! The laws of machines, which put together what they have run, and of runs. Each function does
//! nothing: its contract is the law.
ghost use Rattle.lio_rounds.specs.MachineLaws.{NothingIsARun, RunsAreSeenAsErased, RunsGoOn};
ghost use Rattle.lio_rounds.specs.MachineLaws.{TurnIsARun};
ghost use Rattle.lio_rounds.specs.FlowLaws.{ChannelGoesByFlows, JobGoesByFlows};
ghost use Rattle.lio_rounds.specs.FlowLaws.{NeverChangesNothing, NothingIsReleasedBelow};
ghost use Rattle.lio_rounds.specs.FlowLaws.{RunsAreAlikeBelow};
ghost use Rattle.lio_rounds.specs.Laws.{OtherInputsChangeNothing};

/// A machine as it stands has run nothing.
pub fn nothing_is_a_run()
    ensures { NothingIsARun }
{}

/// One turn is a run.
pub fn turn_is_a_run()
    ensures { TurnIsARun }
{}

/// A run goes on with another one.
pub fn runs_go_on()
    ensures { RunsGoOn }
{}

/// Each observer sees of what a machine has run since it had taken no turn what the erased calculus
/// gives.
pub fn runs_are_seen_as_erased()
    ensures { RunsAreSeenAsErased }
{}

/// What is sealed above an observer changes nothing that it sees, nor what is sent to a channel
/// below it, unless something is released to it.
pub fn other_inputs_change_nothing()
    ensures { OtherInputsChangeNothing }
{}

/// No turn of a policy's run releases anything from above a label, as all the policy's privileges
/// together raise it, to below it, whatever the script is.
pub fn nothing_is_released_below()
    ensures { NothingIsReleasedBelow }
{}

/// An input that never flows to a channel changes no byte of it in rounds, whatever the script is.
pub fn never_changes_nothing()
    ensures { NeverChangesNothing }
{}

/// Nor anything that is seen at the channel's label as the policy's privileges raise it.
pub fn runs_are_alike_below()
    ensures { RunsAreAlikeBelow }
{}

/// So in rounds a channel's bytes are a function of the policy, the script and the texts of the
/// inputs that may flow to it.
pub fn channel_goes_by_flows()
    ensures { ChannelGoesByFlows }
{}

/// That holds of each complete run of a job by rounds.
pub fn job_goes_by_flows()
    ensures { JobGoesByFlows }
{}
