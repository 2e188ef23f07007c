// What a line is answered with.
use ghc_term::GoalName;

/// What a line lists that is written line by line.
#[derive(Clone, Copy, Drop)]
pub enum Listing {
    /// The records.
    Records,
    /// The goals.
    Goals,
    /// The steps that were taken back.
    Shelf,
    /// The whole session, as a history.
    Session,
    /// The kept steps, as a history.
    KeptSteps,
}

/// What a line is answered with.
#[derive(Clone, Copy, Drop)]
pub enum Answered {
    /// The reply stands in the text, and the session goes on.
    Told,
    /// The reply stands in the text, and the session ends.
    Ends,
    /// Nothing was done: a run is asked for, of at most so many steps of any goals, or where a root is named, of the goals that
    /// descend from it. Its lines are the reply, and the session goes on.
    Asks(Option<GoalName>, u32),
    /// Nothing was done: this listing is asked for. Its lines are the reply, and the session goes on.
    Lists(Listing),
}
