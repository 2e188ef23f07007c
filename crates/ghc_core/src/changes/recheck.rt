// Proposals that still hold: it is seen at once, or they are made again.
ghost use Rattle.std.specs.Prelude.{◌≡◌, ◌≢◌, ◌⊎◌, true, false, Some, None, Err, IfOk, IfErr, IsTrue};
ghost use Rattle.std.specs.FinMap as finite;
ghost use Rattle.ghc_fire.specs.Meter.{fired};
ghost use Rattle.ghc_core.specs.Core.{choice_of, Stays};
ghost use Rattle.ghc_core.specs.Proposes.{StillHolds, WasProposed, IsReduction};

use crate::core_state::Core;
use ghc_fire::{Act, Proposal, effect_is_of_what_it_read};
use ghc_term::Fault;
use std::alloc::{AllocError, Global};

// The clause with which an attempt has to be made for it to propose this act.
fn clause_of(act: &Act) -> Option<u32>
    ensures { result ≡ choice_of act.now }
{
    match act {
        Act::ByClause(number) => Some(*number),
        Act::Unified | Act::Assigned | Act::Given(_) | Act::Closed | Act::Asked(_) => None,
    }
}

// Whether the acts are one act of a proposal.
fn is_same_reduction(left: &Act, right: &Act) -> bool
    ensures yes { result ≡ true → left.now ≡ right.now }
    ensures no { result ≡ false → IsReduction left.now → left.now ≢ right.now }
{
    match (left, right) {
        (Act::ByClause(j), Act::ByClause(k)) => *j == *k,
        (Act::Unified, Act::Unified) => true,
        (Act::Assigned, Act::Assigned) => true,
        _ => false,
    }
}

// Whether the proposals have one act and one effect.
fn is_same(alloc: Global, left: &Proposal, right: &Proposal) -> Result<bool, AllocError>
    ensures acts { IfOk result (λ same. same ≡ true → left.now.act ≡ right.now.act) }
    ensures effects { IfOk result (λ same. same ≡ true → left.now.effect ≡ right.now.effect) }
    ensures no { IfOk result (λ same. same ≡ false → IsReduction left.now.act → left.now.act ≡ right.now.act → left.now.effect ≢ right.now.effect) }
{
    if !is_same_reduction(left.act(), right.act()) {
        return Ok(false);
    }
    left.effect().same(alloc, right.effect())
}

// What an attempt's refusal says of a proposal: it is stale, unless memory was refused.
fn stale_unless_memory(fault: Fault) -> Fault
    ensures { ((fault ≡ Fault.Memory) × (result ≡ Fault.Memory)) ⊎ ((fault ≢ Fault.Memory) × (result ≡ Fault.Stale)) }
{
    match fault {
        Fault::Memory => Fault::Memory,
        _ => Fault::Stale,
    }
}

// The proposal made again, where it still holds; else it is stale. A firing is counted.
pub fn recheck(alloc: Global, core: &mut Core, proposal: &Proposal) -> Result<Proposal, Fault>
    ensures holds { IfOk result (λ p. StillHolds core.old.world proposal.now) }
    ensures there { IfOk result (λ p. finite.get core.old.world.state.goals p.goal ≡ Some p.consumed) }
    ensures same { IfOk result (λ p. (p.goal ≡ proposal.now.goal) × (p.act ≡ proposal.now.act) × (p.effect ≡ proposal.now.effect)) }
    ensures fault { IfErr result (λ f. (f ≡ Fault.Memory) ⊎ ((f ≡ Fault.Stale) × ¬ StillHolds core.old.world proposal.now)) }
    ensures gone { finite.get core.old.world.state.goals proposal.now.goal ≡ None → result ≡ Err Fault.Stale }
    ensures stays { Stays core.old core.new }
    ensures counted { core.new.meter ≡ fired core.old.meter }
{
    core.stands();
    let choice = clause_of(proposal.act());
    let again = match core.attempt_counted(alloc, proposal.goal(), choice) {
        Ok(again) => again,
        Err(fault) => return Err(stale_unless_memory(fault)),
    };
    match is_same(alloc, &again, proposal) {
        Ok(true) => Ok(again),
        Ok(false) => Err(Fault::Stale),
        Err(_) => Err(Fault::Memory),
    }
}

// How many comparisons of nodes are made at most to see that a goal is as it was.
const MOST: u32 = 64;

// Whether it is seen at once that the step which was proposed still holds: it is a call's, which read nothing, and the call is there as
// it was. A large call is not looked through.
pub fn holds_as_it_was(alloc: Global, core: &Core, proposal: &Proposal) -> bool
    requires { WasProposed core.now.world proposal.now }
    ensures holds { IsTrue result → StillHolds core.now.world proposal.now }
    ensures there { IsTrue result → finite.get core.now.world.state.goals proposal.now.goal ≡ Some proposal.now.consumed }
{
    core.stands();
    effect_is_of_what_it_read();
    let Act::ByClause(_) = proposal.act() else {
        return false;
    };
    if proposal.effect().reads().len() > 0 {
        return false;
    }
    let Some(goal) = core.state.goals().get(proposal.goal()) else {
        return false;
    };
    let Ok(found) = goal.same_within(alloc, proposal.consumed(), MOST) else {
        return false;
    };
    let Some(same) = found else {
        return false;
    };
    same
}
