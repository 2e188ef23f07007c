// Laws of playing.
ghost use Rattle.ghc_core.specs.Playing.{AnswersAddWhatTheyTell, PlayStaysReachable};

/// An event adds an entry to the journal exactly where its reply tells of a change, and then memory was not refused.
pub fn answers_add_what_they_tell()
    ensures { AnswersAddWhatTheyTell }
{}

/// What events leave is reachable, where the world and the hands before them were.
pub fn play_stays_reachable()
    ensures { PlayStaysReachable }
{}
