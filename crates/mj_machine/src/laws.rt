//! Laws of runs, proved once and for all. The functions do nothing.
ghost use Rattle.mj_machine.specs.Laws.{FrontAndRestOuts, FrontAndRestState, FrontAndRestSteps, StepsDo, StepsLead};
ghost use Rattle.mj_machine.specs.WorkedSteps.{RunIsInSteps, TicketIsGivenBackInSteps};

/// A run over a list of events is a run over its front, and from there over its rest.
pub fn a_run_is_its_front_and_its_rest()
    ensures state { FrontAndRestState }
    ensures outs { FrontAndRestOuts }
    ensures steps { FrontAndRestSteps }
{}

/// The steps of a run lead from its first state to its last, each from where the one before it ended, and do to
/// the lanes what the run does.
pub fn steps_are_the_run()
    ensures lead { StepsLead }
    ensures outs { StepsDo }
{}

/// A worker, two requests in one piece, a reply, a heartbeat, a lease's end and a leaving, in their single acts; and a
/// ticket that is given back in the middle of a tick.
pub fn worked_runs_in_steps()
    ensures requests { RunIsInSteps }
    ensures ticket { TicketIsGivenBackInSteps }
{}
