// Laws about the definitions, each as the contract of a function.
ghost use Rattle.ghc_core.specs.Laws.{ReachableIsOrderly, ReachableIsWellMade, ReachableIsNamed, ReachableKeeps, EventsHaveOneAnswer, EventsLeadWhereChangesLead, CommitIsExact, StepIsExact, StreamStepIsExact, EventsHaveAnAnswer, StillHoldsAsNext};

pub(crate) mod facts;
pub(crate) mod history_laws;
pub(crate) mod load_laws;
pub(crate) mod resume_laws;
pub(crate) mod undo_laws;
pub(crate) mod world_laws;

/// A reachable world keeps no number twice, has an acyclic store, and one goal a stream.
pub fn reachable_is_orderly()
    ensures { ReachableIsOrderly }
{}

/// In a reachable world each variable is the query's or made by a kept step.
pub fn reachable_is_well_made()
    ensures { ReachableIsWellMade }
{}

/// In a reachable world each variable of the query has a name, and no two have one name, but for `_`.
pub fn reachable_is_named()
    ensures { ReachableIsNamed }
{}

/// In a reachable world the journal tells what is kept and what is on the shelf.
pub fn reachable_keeps()
    ensures { ReachableKeeps }
{}

/// In a reachable world an event has one answer at most, unless memory is refused.
pub fn events_have_one_answer()
    ensures { EventsHaveOneAnswer }
{}

/// In a reachable world what is answered for a commit is exact, unless memory was refused.
pub fn commit_is_exact()
    ensures { CommitIsExact }
{}

/// In a reachable world what is answered for a step of a goal is exact, unless memory was refused.
pub fn step_is_exact()
    ensures { StepIsExact }
{}

/// In a reachable world what is answered for an input or a close of a stream is exact, unless memory was refused.
pub fn stream_step_is_exact()
    ensures { StreamStepIsExact }
{}

/// In a reachable world, what a hand holds still holds exactly where it holds as the next step.
pub fn still_holds_as_next()
    ensures { StillHoldsAsNext }
{}

/// In a reachable world each proper event has an answer other than F1.
pub fn events_have_an_answer()
    ensures { EventsHaveAnAnswer }
{}

/// Events and changes lead to the same worlds.
pub fn events_lead_where_changes_lead()
    ensures { EventsLeadWhereChangesLead }
{}
