// Laws about the definitions, each as the contract of a function.
ghost use Rattle.ghc_records.specs.Laws.{ReplayIsOne, ReplayIsWellMade};

/// Records have one replay at most.
pub fn replay_is_one()
    ensures { ReplayIsOne }
{}

/// The store of a replay is acyclic, and its variables are the query's or made by its steps.
pub fn replay_is_well_made()
    ensures { ReplayIsWellMade }
{}
