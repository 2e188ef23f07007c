// Laws of matching and of values, each as the contract of a function.
ghost use Rattle.ghc_match.specs.Laws.{ValuesExclude, EachExpressionHasAValue, ValueLooksAtItsTerms, OutcomesExclude, EachClauseHasAnOutcome, OutcomeIsOfWhatIsLookedAt, RefusesSomewhere, RefusesAtOnePlace};

/// An expression is a number, waits or is bad, only one of these and only in one way.
pub fn values_exclude()
    ensures { ValuesExclude }
{}

/// In an acyclic store each expression is a number, waits or is bad.
pub fn each_expression_has_a_value()
    ensures { EachExpressionHasAValue }
{}

/// Stores that agree on what an expression reaches give it one value.
pub fn value_looks_at_its_terms()
    ensures { ValueLooksAtItsTerms }
{}

/// A clause refuses, waits or accepts, only one of these and only in one way.
pub fn outcomes_exclude()
    ensures { OutcomesExclude }
{}

/// In an acyclic finite store a linear clause refuses, waits or accepts.
pub fn each_clause_has_an_outcome()
    ensures { EachClauseHasAnOutcome }
{}

/// Stores that agree on what a clause looks at give it one outcome.
pub fn outcome_is_of_what_is_looked_at()
    ensures { OutcomeIsOfWhatIsLookedAt }
{}

/// In an acyclic finite store a clause refuses exactly where there is a place at which it refuses.
pub fn refuses_somewhere()
    ensures { RefusesSomewhere }
{}

/// A clause refuses a call at one place at most.
pub fn refuses_at_one_place()
    ensures { RefusesAtOnePlace }
{}
