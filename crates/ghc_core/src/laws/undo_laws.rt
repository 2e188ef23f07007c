// Laws of taking steps away, of taking them again, and of neighbours that change places, each as the contract of a function.
ghost use Rattle.ghc_core.specs.Returns.{ReachableIsReplay, UndoTakesStepAway, RollTakesStepsAway, StepThenUndo, UndoneThenRedone, NeighboursAreArranged};

/// The state of a reachable world is the replay of its kept steps.
pub fn reachable_is_replay()
    ensures { ReachableIsReplay }
{}

/// *Causal liveness*: a kept step without consequences can be undone, which leaves the state without it.
pub fn undo_takes_step_away()
    ensures { UndoTakesStepAway }
{}

/// A kept step can be rolled back, which leaves the state without it and its consequences.
pub fn roll_takes_steps_away()
    ensures { RollTakesStepsAway }
{}

/// *Loop lemma*, forth and back: a step that was just taken can be undone, and that gives back the old state.
pub fn step_then_undo()
    ensures { StepThenUndo }
{}

/// *Loop lemma*, back and forth: what an undo or a rollback took away can be redone in the order of its list, and that gives back the
/// old state.
pub fn undone_then_redone()
    ensures { UndoneThenRedone }
{}

/// Two neighbouring steps, of which the later one does not depend on the earlier one, can be arranged the other way round, which
/// leaves the state.
pub fn neighbours_are_arranged()
    ensures { NeighboursAreArranged }
{}
