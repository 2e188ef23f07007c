// A core as a value that tells its history.
ghost use Rattle.std.specs.Prelude.{◌≡◌};
ghost use Rattle.ghc_records.specs.Journal.{history};
ghost use Rattle.ghc_core.specs.Legal.{IsLegal};
ghost use Rattle.ghc_shared.specs.inner.Calls.{TellsCommit, TellsNoCommit, IsCallMade, CallDoes, IsAnswerTo, IsKnownCall, code_of, is_submit};

use crate::calls::{Call, HistoryItem};
use crate::growing::Growing;
use ghc_core::{Core, Reply, answers_add_what_they_tell};
use ghc_records::Addition;
use ghc_term::Fault;
use std::alloc::Global;

// Tells what a commit answered.
fn tell_commit(answer: Result<u32, Fault>) -> Reply
    ensures { TellsCommit answer result }
{
    match answer {
        Ok(number) => Reply::Stepped(number),
        Err(fault) => Reply::Refused(fault),
    }
}

// Tells why a commit is refused, and else that there is no memory for it.
fn tell_no_commit(found: Result<Addition, Fault>) -> Reply
    ensures { TellsNoCommit found result }
{
    match found {
        Ok(_addition) => Reply::Refused(Fault::Memory),
        Err(reason) => Reply::Refused(reason),
    }
}

// Makes the call, and replies.
fn reply_to(core: &mut Core, alloc: Global, call: Call) -> Reply
    requires { IsKnownCall (code_of core.old.world.opening) call }
    ensures { IsCallMade core.old call result core.new }
{
    match call {
        Call::Submit(proposal) => tell_commit(core.commit(alloc, &proposal)),
        Call::SubmitProposed(proposal) => tell_commit(core.commit_proposed(alloc, proposal)),
        Call::Note(goal) => core.reply_to_note(alloc, goal),
        Call::Command(command) => core.obey(alloc, &command),
    }
}

// Tells why the call is refused, and else that there is no memory for it; a note, which takes no place, is made.
fn refuse_to(core: &mut Core, alloc: Global, call: &Call) -> Reply
    ensures made { IsCallMade core.old call.now result core.new }
    ensures world { core.new.world ≡ core.old.world }
{
    match call {
        Call::Submit(proposal) => tell_no_commit(core.prepare(alloc, proposal)),
        Call::SubmitProposed(proposal) => tell_no_commit(core.prepare(alloc, proposal)),
        Call::Note(goal) => core.reply_to_note(alloc, *goal),
        Call::Command(command) => match core.prepare_command(alloc, command) {
            Ok(_change) => Reply::Refused(Fault::Memory),
            Err(refusal) => Reply::Refused(refusal),
        },
    }
}

impl Growing for Core {
    type Item = HistoryItem;

    type Ask = Call;

    type Reply = Reply;

    ghost history = { λ core. history core.world.opening core.world.journal };

    ghost opened = { λ core. code_of core.world.opening };

    ghost legal = { IsLegal };

    ghost answers = { IsAnswerTo };

    ghost submits = { is_submit };

    ghost does = { CallDoes };

    ghost knows = { IsKnownCall };

    fn refuse(&mut self, alloc: Global, ask: &Call) -> Reply {
        self.stands();
        refuse_to(self, alloc, ask)
    }

    fn len(&self) -> u64 {
        self.stands();
        self.journal().len() as u64 + 1
    }

    fn is_submit(&self, ask: &Call) -> bool {
        matches!(ask, Call::Submit(_) | Call::SubmitProposed(_))
    }

    fn call(&mut self, alloc: Global, ask: Call) -> (Reply, bool) {
        self.stands();
        answers_add_what_they_tell();
        let reply = reply_to(self, alloc, ask);
        let accepted = reply.tells_change();
        (reply, accepted)
    }
}
