// Laws about the definitions, each as the contract of a function.
ghost use Rattle.ghc_trace.specs.BlameLaws.{BlameGoesOn, BlameHasOneTop, BlameIsSound};
ghost use Rattle.ghc_trace.specs.Laws.{NotesTellPorts, NotesTellNews};
ghost use Rattle.ghc_trace.specs.OtherClauses.{OtherClausesAreTaken};

/// Where no goal is untried, the notes tell which goals a step resumes.
pub fn notes_tell_ports()
    ensures { NotesTellPorts }
{}

/// Where no goal is untried before a change and after it, the notes tell which goals are stuck otherwise.
pub fn notes_tell_news()
    ensures { NotesTellNews }
{}

/// Once a kept step was rolled back, its goal can be stepped by the step's own clause, and by just those others that its line tells.
pub fn other_clauses_are_taken()
    ensures { OtherClausesAreTaken }
{}

/// What is said to be at fault is so, however one judges in accord with the answers: the soundness of algorithmic debugging.
pub fn blame_is_sound()
    ensures { BlameIsSound }
{}

/// After each answer fewer calls are in question, and the one asked about is in question no more.
pub fn blame_goes_on()
    ensures { BlameGoesOn }
{}

/// By the answers there is one call below which is asked.
pub fn blame_has_one_top()
    ensures { BlameHasOneTop }
{}
