// Laws of loading, each as the contract of a function.
ghost use Rattle.ghc_core.specs.LoadLaws.{LoadIsExact, SavedIsLoadedAgain};

/// What is answered for a history is exact, unless memory was refused: it leaves one world or has one first step that is not
/// possible, and never both.
pub fn load_is_exact()
    ensures { LoadIsExact }
{}

/// What is saved of a reachable world is loaded again, step for step, and nothing else is: state, kept steps and next number are
/// those that were saved.
pub fn saved_is_loaded_again()
    ensures { SavedIsLoadedAgain }
{}
