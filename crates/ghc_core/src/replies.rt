// A core that replies to commands, and to notes of goals.
ghost use Rattle.std.specs.Prelude.{◌≡◌, ◌⊎◌, IfOk, OnOk, OnErr};
ghost use Rattle.std.specs.FinSet as set;
ghost use Rattle.ghc_term.specs.declared.fault.Fault.{Fault as fault_spec};
ghost use Rattle.ghc_hooks.specs.Notes.{AreLeft};
ghost use Rattle.ghc_core.specs.Answers.{Obeys, told_of};
ghost use Rattle.ghc_core.specs.Anyway.{IsNotObeyedAnyway};
ghost use Rattle.ghc_core.specs.Change.{CanChange, Changes, IsBoundBy};
ghost use Rattle.ghc_core.specs.CommandCode.{command_of};
ghost use Rattle.ghc_core.specs.Core.{Stays};
ghost use Rattle.ghc_core.specs.Counting.{TriesUnless, CountsInObeying, after_firings, firings_of_command};
ghost use Rattle.ghc_core.specs.EventCode.{reply_of};
ghost use Rattle.ghc_core.specs.Events.{refused};
ghost use Rattle.ghc_core.specs.Meets.{Moves};
ghost use Rattle.ghc_core.specs.Playing.{AddsOneAtMost, IsRefusal};
ghost use Rattle.ghc_core.specs.Proposes.{Notes, IsNoCandidate};
ghost use Rattle.ghc_core.specs.Settling.{IsNoted, AreKept};

use crate::changes::Change;
use crate::command::Command;
use crate::copies::verdict_again;
use crate::core_state::Core;
use crate::reply::Reply;
use ghc_term::{Fault, GoalName};
use std::alloc::{AllocError, Global};

// The reply to the change, with memory for the numbers of steps that are taken away.
fn change_told(alloc: Global, change: &Change) -> Result<Reply, AllocError>
    ensures { IfOk result (λ reply. reply_of reply ≡ told_of change.now) }
{
    match change {
        Change::Comes(_, addition) => Ok(Reply::Stepped(addition.step().number())),
        Change::Goes(_, rollback) => Ok(Reply::Undone(rollback.numbers(alloc)?)),
        Change::Reorders(_) => Ok(Reply::Arranged),
    }
}

impl Core {
    // Makes the change, and tells it. The memory for the reply is taken first, then room; an error leaves the core as it was.
    fn carry_out(&mut self, alloc: Global, change: Change) -> Result<Reply, AllocError>
        requires { CanChange self.old.world change }
        ensures told { IfOk result (λ reply. reply_of reply ≡ told_of change) }
        ensures changed { OnOk result (Changes self.old.world change self.new.world) }
        ensures notes { OnOk result (AreLeft self.new.world.state.goals (IsBoundBy change) self.old.notes self.new.notes) }
        ensures stays { OnErr result (Stays self.old self.new) }
        ensures meter { self.new.meter ≡ self.old.meter }
    {
        let reply = change_told(alloc, &change)?;
        self.make(change)?;
        Ok(reply)
    }

    /// Does what the command says, and replies. Refusals, their order and the cost are those of `prepare_command`, but that the
    /// reply and the change need memory too; a refused command changes nothing but the meter. The journal has one entry more at
    /// most.
    pub fn obey(&mut self, alloc: Global, command: &Command) -> Reply
        ensures answer { Obeys (Unit {0}) self.old.world (command_of command.now) (reply_of result) self.new.world }
        ensures entry { AddsOneAtMost self.old.world self.new.world }

        // Where memory runs out, it still reports these: the stream is not there or its tail is bound; the step is not there, has a
        // consequence or lacks its goal; what is named is not known; an ask has no room; an order's first number is not kept.
        ensures anyway { (f : fault_spec) → IsNotObeyedAnyway self.old.world (command_of command.now) f → reply_of result ≡ refused f }
        ensures stays { IsRefusal (reply_of result) → Stays self.old self.new }

        // A note stays just where its goal is still there and did not look at what the steps of the change bind.
        ensures moves { IsRefusal (reply_of result) ⊎ Moves self.old self.new }
        ensures counted { CountsInObeying self.old.world (command_of command.now) self.old.meter self.new.meter }

        // A redo that is obeyed fired once.
        ensures fired { IsRefusal (reply_of result) ⊎ (self.new.meter ≡ after_firings (firings_of_command (command_of command.now)) self.old.meter) }
    {
        let change = match self.prepare_command(alloc, command) {
            Ok(change) => change,
            Err(refusal) => return Reply::Refused(refusal),
        };
        match self.carry_out(alloc, change) {
            Ok(reply) => reply,
            Err(_) => Reply::Refused(Fault::Memory),
        }
    }

    /// Tries the goal and notes what was found, as `note` does, and tells its status. The memory for the reply is taken before the
    /// note is put; a refused note changes nothing but the meter.
    pub fn reply_to_note(&mut self, alloc: Global, goal: GoalName) -> Reply
        ensures answer { Notes (Unit {0}) self.old.world goal (reply_of result) }
        ensures no_goal { IsNoCandidate self.old.world goal → reply_of result ≡ refused Fault.NoGoal }
        ensures world { self.new.world ≡ self.old.world }
        ensures noted { IsRefusal (reply_of result) ⊎ (IsNoted self.old.world goal self.old.notes self.new.notes × (self.new.untried ≡ set.remove self.old.untried goal)) }
        ensures kept { AreKept self.old.notes self.new.notes }
        ensures stays { IsRefusal (reply_of result) → Stays self.old self.new }
        ensures counted { TriesUnless (IsNoCandidate self.old.world goal) self.old.meter self.new.meter }
    {
        let note = match self.try_named(alloc, goal) {
            Ok(note) => note,
            Err(fault) => return Reply::Refused(fault),
        };
        let verdict = match verdict_again(alloc, note.verdict()) {
            Ok(verdict) => verdict,
            Err(_) => return Reply::Refused(Fault::Memory),
        };
        match self.enter(goal, note) {
            Ok(()) => Reply::Noted(goal, verdict),
            Err(_) => Reply::Refused(Fault::Memory),
        }
    }
}
