// What can be refused, and how its refusal begins.
ghost use Rattle.std.specs.Prelude.{◌≡◌};
ghost use Rattle.ghcdb.specs.inner.RefusedPart.{prefix_of};

/// What is refused.
#[derive(Clone, Copy)]
pub enum RefusedPart {
    Program,
    Query,
    History,
    Schedule,
    Session,
}

impl RefusedPart {
    /// What stands before the text of a refusal.
    pub fn prefix(self) -> &'static str
        ensures { result.now ≡ prefix_of self }
    {
        match self {
            RefusedPart::Program => "program: ",
            RefusedPart::Query => "query: ",
            RefusedPart::History => "history: ",
            RefusedPart::Schedule => "schedule: ",
            RefusedPart::Session => "session: ",
        }
    }
}
