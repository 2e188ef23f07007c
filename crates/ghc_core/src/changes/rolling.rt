// Steps are taken back from the state and from notes and marks, the last one first, and go to the shelf; their records are taken out.
ghost use Rattle.std.specs.Prelude.{◌≡◌, ◌<◌, ◌≤◌, ◌+◌, length, None};
ghost use Rattle.std.specs.FinMap as finite;
ghost use Rattle.ghc_term.specs.Lists.{In};
ghost use Rattle.ghc_term.specs.declared.goal_name.GoalName.{GoalName};
ghost use Rattle.ghc_records.specs.Orders.{AreDistinct, Picks};
ghost use Rattle.ghc_records.specs.Record.{Record as record_spec};
ghost use Rattle.ghc_records.specs.State.{IsTakenBack, AreTakenBack};
ghost use Rattle.ghc_depend.specs.Kept.{with_shelved};
ghost use Rattle.ghc_core.specs.inner.Carried.{Consumed, AreCarriedBack, AreAllCarriedBack};
ghost use Rattle.ghc_core.specs.inner.StreamGoals.{told_back, all_told_back};

use crate::changes::carrying::carry_back;
use crate::stream_goals::StreamGoals;
use ghc_hooks::Tries;
use ghc_records::{Records, Removal, Shelf, State};

/// Takes a step back, where there is room for a goal and for its record: a look-up for each of its goals and bindings, and some
/// for each goal that looked at what it binds.
pub(crate) fn take_one_back(
    state: &mut State,
    tries: &mut Tries,
    shelf: &mut Shelf,
    streams: &mut StreamGoals,
    removal: Removal,
)
    requires goals { 0 < state.old.room.goals }
    requires tries { 0 < tries.old.room }
    requires shelf { 0 < shelf.old.room }
    requires new { (g : GoalName) → Consumed removal g → finite.get tries.old.notes g ≡ None }
    ensures state { IsTakenBack removal state.old.held state.new.held }
    ensures tries { AreCarriedBack removal tries.old tries.new }
    ensures shelf { shelf.new.held ≡ finite.insert shelf.old.held removal.number removal }
    ensures streams { streams.new ≡ told_back removal streams.old }
    ensures room_of_goals { state.old.room.goals ≤ state.new.room.goals + 1 }
    ensures room_of_tries { tries.old.room ≤ tries.new.room + 1 }
    ensures room_of_shelf { shelf.old.room ≤ shelf.new.room + 1 }
{
    let step = state.take_back(removal);
    carry_back(tries, &step);
    streams.tell_back(&step);
    shelf.put(step);
}

/// Takes these steps back, the last one first, where there is room for a goal and a record for each: as much for each as for one.
pub(crate) fn take_all_back(
    state: &mut State,
    tries: &mut Tries,
    shelf: &mut Shelf,
    streams: &mut StreamGoals,
    mut removals: Vec<Removal>,
)
    requires goals { length removals.items ≤ state.old.room.goals }
    requires tries { length removals.items ≤ tries.old.room }
    requires shelf { length removals.items ≤ shelf.old.room }
    requires new { (r : record_spec) → In r removals.items → (g : GoalName) → Consumed r g → finite.get tries.old.notes g ≡ None }
    ensures state { AreTakenBack removals.items state.old.held state.new.held }
    ensures tries { AreAllCarriedBack removals.items tries.old tries.new }
    ensures shelf { shelf.new.held ≡ with_shelved removals.items shelf.old.held }
    ensures streams { streams.new ≡ all_told_back removals.items streams.old }
    ensures room_of_goals { state.old.room.goals ≤ state.new.room.goals + length removals.items }
    ensures room_of_tries { tries.old.room ≤ tries.new.room + length removals.items }
    ensures room_of_shelf { shelf.old.room ≤ shelf.new.room + length removals.items }
{
    while let Some(removal) = removals.pop() {
        take_one_back(state, tries, shelf, streams, removal);
    }
}

/// Takes the records of these steps out, the last one first, so that no record that stays is moved: what `Records::remove` costs for
/// each.
pub(crate) fn strike_all(records: &mut Records, removals: &[Removal])
    requires kept { (r : record_spec) → In r removals.now → In r records.old.held }
    requires distinct { AreDistinct removals.now }
    ensures { Picks (λ s. ¬ In s removals.now) records.old.held records.new.held }
{
    let mut place = removals.len();
    while place > 0 {
        place -= 1;
        let _ = records.remove(removals[place].step().number());
    }
}
