// Small facts on effects, each as the contract of a function.
ghost use Rattle.ghc_fire.specs.Facts.{AppendRun, InputAndClose, InputReadsAlias, BoundTailTakesNothing};

/// The effects of the four steps of `append([1],[2],R)`.
pub fn append_run()
    ensures { AppendRun }
{}

/// Two inputs of a stream, and its close.
pub fn input_and_close()
    ensures { InputAndClose }
{}

/// An input through an alias reads the alias.
pub fn input_reads_alias()
    ensures { InputReadsAlias }
{}

/// A stream whose tail is bound takes no input.
pub fn bound_tail_takes_nothing()
    ensures { BoundTailTakesNothing }
{}
