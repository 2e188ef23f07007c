// Laws of unification, each as the contract of a function.
ghost use Rattle.ghc_unify.specs.Laws.{UnificationIsLocal, UnificationBindsAndReads, UnificationKeepsAcyclic, UnificationHasOneEnding, UnifyIsExact, EachUnificationHasAnEnding, UnificationLooksAtItsTerms, UnificationsCommute, UnificationKeepsSolutions};

/// Bindings of variables that a unification did not read may be taken away.
pub fn unification_is_local()
    ensures { UnificationIsLocal }
{}

/// A unification binds what was unbound, and reads what was bound.
pub fn unification_binds_and_reads()
    ensures { UnificationBindsAndReads }
{}

/// A unification keeps a store acyclic.
pub fn unification_keeps_acyclic()
    ensures { UnificationKeepsAcyclic }
{}

/// A unification is solved, clashes or comes to a cycle, only one of these and only in one way.
pub fn unification_has_one_ending()
    ensures { UnificationHasOneEnding }
{}

/// In an acyclic store what is answered for a unification is exact, unless memory was refused.
pub fn unify_is_exact()
    ensures { UnifyIsExact }
{}

/// In an acyclic finite store each unification is solved, clashes or comes to a cycle.
pub fn each_unification_has_an_ending()
    ensures { EachUnificationHasAnEnding }
{}

/// Stores that agree on all that the two sides reach give a unification one end.
pub fn unification_looks_at_its_terms()
    ensures { UnificationLooksAtItsTerms }
{}

/// Two unifications, of which the later one read nothing that the earlier one bound, may change places.
pub fn unifications_commute()
    ensures { UnificationsCommute }
{}

/// A unification keeps the solutions, and a clash or a cycle has none.
pub fn unification_keeps_solutions()
    ensures { UnificationKeepsSolutions }
{}
