// Laws about the definitions, each as the contract of a function.
ghost use Rattle.ghc_pool.specs.Laws.{RunsAddAtTheEnd, RunsReduce};

/// What a run adds stands at the end of the record and of the journal, under the next numbers.
pub fn runs_add_at_the_end()
    ensures { RunsAddAtTheEnd }
{}

/// Each step of a run is a reduction of a goal in question.
pub fn runs_reduce()
    ensures { RunsReduce }
{}
