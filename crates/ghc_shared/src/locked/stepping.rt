// A step of a core that is proposed and submitted at once.
ghost use Rattle.std.specs.Prelude.{◌≡◌, ◌⊎◌, IsTrue, IfOk, IfErr, OnOk, OnErr, None, Err};
ghost use mathlib.Core.List.{IsPrefix};
ghost use Rattle.ghc_fire.specs.Meter.{fired, one_more};
ghost use Rattle.ghc_core.specs.World.{World, IsNextStep};
ghost use Rattle.ghc_core.specs.EventCode.{reply_of};
ghost use Rattle.ghc_core.specs.Legal.{IsLegal};
ghost use Rattle.ghc_core.specs.Playing.{tells_change, IsRefusal};
ghost use Rattle.ghc_core.specs.Core.{Stays};
ghost use Rattle.ghc_core.specs.Meets.{Moves};
ghost use Rattle.ghc_shared.specs.inner.Calls.{code_of, IsProposal};
ghost use Rattle.ghc_shared.specs.inner.AtOnce.{IsTaken, IsAnsweredAtOnce, IsStepAtOnce};

use crate::booking::book_call;
use crate::growing::Growing;
use crate::knowledge::HistoryTable;
use crate::locked::Locked;
use crate::naming::Naming;
use crate::pass::{Pass, counted};
use crate::receipt::Receipt;
use crate::waking::list_woken;
use ghc_core::{Core, Reply, answers_add_what_they_tell, leaves_is_one, legal_is_reachable};
use ghc_records::Record;
use ghc_term::{Fault, GoalName};
use std::alloc::Global;

// Takes a step that was found, if there is room for its place. Where memory is refused, nothing changes.
fn take(core: &mut Core, alloc: Global, step: Record, room: bool) -> Reply
    requires { IsNextStep core.old.world step }
    ensures taken { IsTaken core.old.world step (reply_of result) core.new.world }
    ensures room { IsTrue (tells_change (reply_of result)) → IsTrue room }

    // Where the step is taken, a note stays just where its goal is still there and did not look at what the step binds; and nothing is tried.
    ensures moves { IsRefusal (reply_of result) ⊎ Moves core.old core.new }
    ensures stays { IsRefusal (reply_of result) → Stays core.old core.new }
    ensures meter { core.new.meter ≡ core.old.meter }
{
    if !room {
        return Reply::Refused(Fault::Memory);
    }
    let number = step.number();
    match core.take_step(alloc, step) {
        Ok(()) => Reply::Stepped(number),
        Err(_) => Reply::Refused(Fault::Memory),
    }
}

// Proposes a step of the goal, lists the goals that it would wake, and takes it, if there is room for its place. It gives the reply to
// the submit, and how many goals the step makes. Where none is proposed, the fault says why.
fn propose_and_take(
    core: &mut Core,
    alloc: Global,
    goal: GoalName,
    room: bool,
    woken: &mut Vec<GoalName>,
) -> Result<(Reply, u32), Fault>
    ensures answered { IfOk result (λ r. IsAnsweredAtOnce core.old.world goal r.0 r.1 core.new.world woken.old.items woken.new.items) }
    ensures room { IfOk result (λ r. IsTrue (tells_change (reply_of r.0)) → IsTrue room) }
    ensures refused { IfErr result (λ f. IsProposal (code_of core.old.world.opening) core.old.world goal None (Err f)) }
    ensures stays { OnErr result ((core.new.world ≡ core.old.world) × (woken.new.items ≡ woken.old.items)) }
    ensures moves { IfOk result (λ r. IsRefusal (reply_of r.0) ⊎ Moves core.old core.new) }
    ensures still { IfOk result (λ r. IsRefusal (reply_of r.0) → Stays core.old core.new) }
    ensures idle { OnErr result (Stays core.old core.new) }
    ensures counted { core.new.meter ≡ fired core.old.meter }
{
    core.stands();
    match core.prepare_step(alloc, goal, None) {
        Ok(step) => {
            let effect = step.effect();
            let made = effect.made();
            list_woken(core, effect.binds(), woken);
            Ok((take(core, alloc, step, room), made))
        }
        Err(Fault::Full) => Ok((Reply::Refused(Fault::Full), 0)),
        Err(fault) => Err(fault),
    }
}

impl<N: Naming> Locked<Core, N> {
    // Proposes a step of the goal and submits it, and the pass sees the whole history after it. Where none is proposed, the pass is as
    // it was.
    pub(crate) fn step_at_once(
        &mut self,
        table: &HistoryTable<Core>,
        alloc: Global,
        me: &mut Pass<Core, N>,
        goal: GoalName,
        woken: &mut Vec<GoalName>,
    ) -> Result<(Receipt<Reply>, u32), Fault>
        requires { (table.now.shared.table_id ≡ N.table) × (N.table.words ≡ 1) }
        ensures begins { IsPrefix me.old.front me.new.front }
        ensures number { me.new.number ≡ me.old.number }
        ensures legal { IsLegal me.new.front }
        ensures submits { OnOk result (me.new.submits ≡ one_more me.old.submits) }
        ensures stepped { IfOk result (λ r. IsStepAtOnce N.opened goal r.0 r.1 me.old me.new woken.old.items woken.new.items) }
        ensures refused { IfErr result (λ f. (w : World) × IsProposal N.opened w goal None (Err f)) }
        ensures stays { OnErr result ((me.new ≡ me.old) × (woken.new.items ≡ woken.old.items)) }
        ensures moves { IfOk result (λ r. IsRefusal (reply_of r.0.reply) ⊎ Moves self.old self.new) }
        ensures still { IfOk result (λ r. IsRefusal (reply_of r.0.reply) → Stays self.old self.new) }
        ensures counted { self.new.meter ≡ fired self.old.meter }
    {
        answers_add_what_they_tell();
        legal_is_reachable();
        leaves_is_one();
        self.value.stands();
        let room = me.places.reserve(1).is_ok();
        let place = self.value.len();
        let (reply, made) = propose_and_take(&mut self.value, alloc, goal, room, woken)?;
        me.submits = counted(me.submits, true);
        let accepted = reply.tells_change();
        let count = self.value.len();
        let Some(mut kept) = self.held.replace(None) else {
            unreachable!()
        };
        book_call(
            table,
            &self.value,
            &mut kept,
            &mut me.seat,
            &mut me.share,
            &mut me.places,
            me.number,
            place,
            count,
            accepted,
        );
        drop(self.held.replace(Some(kept)));
        let receipt = Receipt {
            place,
            accepted,
            reply,
        };
        Ok((receipt, made))
    }
}
