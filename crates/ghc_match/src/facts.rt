// Small facts on values and on what clauses say, each as the contract of a function.
ghost use Rattle.ghc_match.specs.Facts.{StructureIsNoNumber, WaitsOnTwo};

/// `f(Y) + 1` has no value and waits on nothing.
pub fn structure_is_no_number()
    ensures { StructureIsNoNumber }
{}

/// `p(a,b)` waits on both variables of `p(X,Y)`.
pub fn waits_on_two()
    ensures { WaitsOnTwo }
{}
