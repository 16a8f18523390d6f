//! The law of the parts of a turn. The function does nothing: its contract is the law.
ghost use Rattle.lio_task.specs.Laws.{StepIsMadeOfParts};

/// What a task's next turn does, what the node that it meets answers and becomes, and how the task
/// goes on, are the small step.
pub fn step_is_made_of_parts()
    ensures { StepIsMadeOfParts }
{}
