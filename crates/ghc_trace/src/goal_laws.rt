// Laws about the lines of goals, each as the contract of a function.
ghost use Rattle.ghc_trace.specs.GoalLaws.{NotesTellGoals, LinesAreOfGoals};

/// Where no goal is untried, the lines by the notes are those of the world.
pub fn notes_tell_goals()
    ensures { NotesTellGoals }
{}

/// There is no line just where there is no goal.
pub fn lines_are_of_goals()
    ensures { LinesAreOfGoals }
{}
