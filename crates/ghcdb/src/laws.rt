// Laws of the start, of what opens and of what is saved, each as the contract of a function.
ghost use Rattle.ghcdb.specs.HistoryFront.{WhatIsReadTells};
ghost use Rattle.ghcdb.specs.ProgramText.{FrontTells};
ghost use Rattle.ghcdb.specs.Saving.{SavedSessionsOpenAgain};
ghost use Rattle.ghcdb.specs.Sessions.{SessionsStaySessions, WhatOpensIsASession};
ghost use Rattle.ghcdb.specs.Start.{StartIsExact};
ghost use Rattle.ghcdb.specs.Tellable.{EachSaveOpensAgain, SessionsStayTellable};

use ghc_core::{
    carried_out_is_legal, events_lead_where_changes_lead, legal_is_reachable,
    what_is_told_is_carried_out,
};
use ghc_records::{texts_tell_one_chronicle, written_chronicles_are_read_again};
use ghc_trace::listed_spies_come_back;

/// What is answered for the texts of a program and a query is exact, unless memory was refused.
pub fn start_is_exact()
    ensures { StartIsExact }
{}

/// What is read of a program's text, at most a byte more than it may have, tells as much of the program as the whole text.
pub fn a_front_tells_the_program()
    ensures { FrontTells }
{}

/// What is read of the text of a history tells the histories that the whole text tells, and is refused as it is.
pub fn a_front_tells_no_history()
    ensures { WhatIsReadTells }
{}

/// What opens on program and query that are started is a session on them. Changes lead to its world, which is of that program and query,
/// and the program has a clause of each predicate that is spied.
pub fn what_opens_is_a_session()
    ensures { WhatOpensIsASession }
{
    // Each is called for its clause, which the proof cites.
    carried_out_is_legal();
    legal_is_reachable();
    events_lead_where_changes_lead();
}

/// What lines leave of a session on program and query that are started is a session on them, also where it was broken off.
pub fn sessions_stay_sessions()
    ensures { SessionsStaySessions }
{}

/// What is saved of a session, where a text can tell its chronicle, opens as that session again, its world whole and its spies, and as no
/// other, and is not refused.
pub fn saved_sessions_open_again()
    ensures { SavedSessionsOpenAgain }
{
    // Each is called for its clause, which the proof cites.
    written_chronicles_are_read_again();
    texts_tell_one_chronicle();
    what_is_told_is_carried_out();
    events_lead_where_changes_lead();
    listed_spies_come_back();
}

/// What opens on program and query that are started is tellable, and so is what lines leave of it. A text can tell the chronicle of what
/// is tellable, where that has no more entries than a text may have.
pub fn sessions_stay_tellable()
    ensures { SessionsStayTellable }
{
    // Each is called for its clause, which the proof cites.
    listed_spies_come_back();
    carried_out_is_legal();
    legal_is_reachable();
}

/// What `save` tells anywhere in a session that was opened, also in one that was broken off, opens as that session again. No line of it
/// may say that memory was refused, and the journal may have no more entries than a text.
pub fn each_save_opens_again()
    ensures { EachSaveOpensAgain }
{
    // Each is called for its clause, which the proof cites.
    written_chronicles_are_read_again();
    texts_tell_one_chronicle();
    what_is_told_is_carried_out();
    events_lead_where_changes_lead();
    listed_spies_come_back();
    carried_out_is_legal();
    legal_is_reachable();
}
