// Facts about the definitions, each as the contract of a function.
ghost use Rattle.ghc_depend.specs.Facts.{AppendDepends, AppendOrders, WakingDepends};

/// Causes and consequences in the run of `append([1],[2],R)`.
pub fn append_depends()
    ensures { AppendDepends }
{}

/// A lawful order of that run, and three that are not, with their pairs.
pub fn append_orders()
    ensures { AppendOrders }
{}

/// A step that woke a goal, and one that did not.
pub fn waking_depends()
    ensures { WakingDepends }
{}
