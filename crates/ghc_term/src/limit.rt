// What a text, a program or a print may not exceed.
ghost use Rattle.std.specs.Prelude.{◌≡◌};
ghost use Rattle.ghc_term.specs.Limit.{limit_word};

/// The most bytes of a program, a query, an input term or what is asked for in mid-run.
pub const TEXT_LIMIT: usize = 1_048_576;

/// What was exceeded.
#[derive(Clone, Copy, Debug, PartialEq, Eq)]
pub enum Limit {
    /// The bytes of a program or a query.
    Text,
    /// The clauses of a program.
    Clauses,
    /// The arguments of a call or a structure.
    Arity,
    /// The brackets that are open at one place.
    Depth,
    /// The guards, or the body goals, of a clause or a query.
    Goals,
    /// The variables of a clause or a query.
    Variables,
    /// The nodes of an input term.
    Term,
    /// The bytes of a printed term or goal.
    Print,
    /// The bytes of a console line.
    Line,
    /// A history of a version that is not read here.
    Version,
}

impl Limit {
    /// The word for the limit in a refusal's text.
    pub fn word(self) -> &'static str
        ensures { result.now ≡ limit_word self }
    {
        match self {
            Limit::Text => "text",
            Limit::Clauses => "clauses",
            Limit::Arity => "arity",
            Limit::Depth => "depth",
            Limit::Goals => "goals",
            Limit::Variables => "variables",
            Limit::Term => "term",
            Limit::Print => "print",
            Limit::Line => "line",
            Limit::Version => "version",
        }
    }
}
