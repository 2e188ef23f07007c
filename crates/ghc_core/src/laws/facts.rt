// Facts about the definitions, each as the contract of a function.
ghost use Rattle.ghc_core.specs.Facts.{SecondHandIsStale, RedoIsChanged};

/// Two hands propose one goal: the commit of one is a step, and that of the other is stale.
pub fn second_hand_is_stale()
    ensures { SecondHandIsStale }
{}

/// A step that would now clash is not redone.
pub fn redo_is_changed()
    ensures { RedoIsChanged }
{}
