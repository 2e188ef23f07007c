// Laws about the definitions, each as the contract of a function.
ghost use Rattle.ghc_hooks.specs.Laws.{StatusIsOne, EachGoalHasAStatus, StatusIsOfWhatIsLookedAt, GoalsWaitForWhatTheyLookAt, ExactNotesAwaitWhatIsLookedAt, LookedIsOfWhatIsLookedAt, ExactNotesStayExact, SettledNotesShowTheFace, FaceIsOne};

/// A goal has one status in an acyclic store.
pub fn status_is_one()
    ensures { StatusIsOne }
{}

/// In an acyclic finite store each goal has a status.
pub fn each_goal_has_a_status()
    ensures { EachGoalHasAStatus }
{}

/// Stores that agree on what a goal looks at give it one status.
pub fn status_is_of_what_is_looked_at()
    ensures { StatusIsOfWhatIsLookedAt }
{}

/// A goal waits only for variables that it looks at.
pub fn goals_wait_for_what_they_look_at()
    ensures { GoalsWaitForWhatTheyLookAt }
{}

/// An exact note awaits only what it looked at.
pub fn exact_notes_await_what_is_looked_at()
    ensures { ExactNotesAwaitWhatIsLookedAt }
{}

/// Stores that agree on what a goal looks at let it look at the same.
pub fn looked_is_of_what_is_looked_at()
    ensures { LookedIsOfWhatIsLookedAt }
{}

/// A note stays exact where no variable that its goal looks at is bound or freed.
pub fn exact_notes_stay_exact()
    ensures { ExactNotesStayExact }
{}

/// In an acyclic store, where notes are exact and no goal is untried, what the notes show is the face of the state, and the
/// other way round.
pub fn settled_notes_show_the_face()
    ensures { SettledNotesShowTheFace }
{}

/// A state has one face.
pub fn face_is_one()
    ensures { FaceIsOne }
{}
