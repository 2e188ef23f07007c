// Laws of journals and legal histories, each as the contract of a function.
ghost use Rattle.ghc_core.specs.HistoryLaws.{ReachableIsOne, LeavesIsOne, ReachableIsLegal, LegalIsReachable, JournalTellsWhatIsKept};

/// Reachable worlds of one opening and one journal are one world.
pub fn reachable_is_one()
    ensures { ReachableIsOne }
{}

/// A legal history leaves one world.
pub fn leaves_is_one()
    ensures { LeavesIsOne }
{}

/// A reachable world is left by the history of its opening and its journal.
pub fn reachable_is_legal()
    ensures { ReachableIsLegal }
{}

/// What a legal history leaves is reachable.
pub fn legal_is_reachable()
    ensures { LegalIsReachable }
{}

/// The journal of a reachable world tells what is kept and shelved, and nothing else.
pub fn journal_tells_what_is_kept()
    ensures { JournalTellsWhatIsKept }
{}
