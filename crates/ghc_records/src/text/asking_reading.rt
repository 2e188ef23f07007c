// Reading the lines of steps that ask for goals, as chronicles have them.
ghost use Rattle.std.specs.Prelude.{◌≡◌, ◌≢◌, ◌↔◌, ◌<◌, ◌≤◌, ◌∷◌, ◌++◌, ◌==◌, ℕ, List, None, Some, filter, codes, is_some, IsTrue, IfOk, IfSome, IfNone};
ghost use Rattle.std.specs.Fmt.{decimal};
ghost use Rattle.std.specs.List.{list_all};
ghost use Rattle.ghc_term.specs.Goal.{Goal as goal_spec};
ghost use Rattle.ghc_term.specs.InputTerm.{most_open};
ghost use Rattle.ghc_fire.specs.Asked.{made_from};
ghost use Rattle.ghc_fire.specs.declared.act.Act.{Act as act_spec};
ghost use Rattle.ghc_fire.specs.declared.act.Act.TheVariants.{Asked as asks};
ghost use Rattle.ghc_records.specs.Journal.{Step as step_spec};
ghost use Rattle.ghc_records.specs.StepText.{body_text};
ghost use Rattle.ghc_records.specs.EntryText.{AreNewInOrder, SaysAsking, SaysGoals};

use crate::step::Step;
use crate::text::brackets::{MOST_OPEN, opens_many};
use crate::text::cutting::{behind, cut, positive};
use crate::text::step_reading::is_memory;
use crate::text::step_text::write_body;
use ghc_fire::{Act, Ask, Asked};
use ghc_reader::{read_body, read_body_is_exact};
use ghc_term::{Goal, VarName};
use std::alloc::{AllocError, Global};

// Whether each variable is one of a state.
fn are_all_named(named: &[Option<VarName>]) -> bool
    ensures { result ≡ list_all is_some named.now }
{
    named.iter().all(|name| name.is_some())
}

// Whether those of a step among the variables are `_n_1`, `_n_2`, .. in their order.
fn are_in_order(variables: &[VarName], step: u32) -> bool
    ensures { IsTrue result ↔ ((k : ℕ) × (filter (λ x. x.step == step) variables.now ≡ made_from step 1 k)) }
{
    let mut place = 0u64;
    for variable in variables {
        if variable.step == step {
            place = place + 1;
            if u64::from(variable.place) != place {
                return false;
            }
        }
    }
    true
}

// The goals once more, with their parts shared.
fn share_goals(alloc: Global, goals: &[Goal]) -> Result<Vec<Goal>, AllocError>
    ensures { IfOk result (λ gs. gs.items ≡ goals.now) }
{
    let mut shared = Vec::new(alloc);
    shared.reserve_exact(goals.len())?;
    for goal in goals {
        shared.push(goal.share()?)?;
    }
    Ok(shared)
}

// The variables once more.
fn copy_variables(alloc: Global, variables: &[VarName]) -> Result<Vec<VarName>, AllocError>
    ensures { IfOk result (λ xs. xs.items ≡ variables.now) }
{
    let mut copied = Vec::new(alloc);
    copied.reserve_exact(variables.len())?;
    for variable in variables {
        copied.push(*variable)?;
    }
    Ok(copied)
}

// The goals of an ask, as they are.
fn asked_by(alloc: Global, ask: &Ask) -> Result<Asked, AllocError>
    ensures { IfOk result (λ asked. asked ≡ ask.now) }
{
    let goals = share_goals(alloc, ask.goals())?;
    let variables = copy_variables(alloc, ask.variables())?;
    Asked::of(alloc, goals, variables)
}

// Whether what is printed of the goals opens more than `MOST_OPEN` brackets at one place.
fn are_printed_deep(alloc: Global, goals: &[Goal]) -> Result<bool, AllocError>
    ensures { IfOk result (λ deep. IsTrue deep ↔ (MOST_OPEN < most_open 0 (body_text goals.now))) }
{
    let mut text = String::new(alloc);
    write_body(goals, &mut text)?;
    Ok(opens_many(text.as_bytes()))
}

// The goals that a text says are asked for; none where it says none.
fn read_goals(alloc: Global, text: &[u8]) -> Result<Option<Ask>, AllocError>
    ensures some { IfOk result (λ found. IfSome found (λ ask. SaysGoals text.now ask)) }
    ensures one { IfOk result (λ found. IfSome found (λ ask. (gs : List goal_spec) → SaysGoals text.now gs → gs ≡ ask)) }
    ensures none { IfOk result (λ found. IfNone found ((gs : List goal_spec) → ¬ SaysGoals text.now gs)) }
{
    if opens_many(text) {
        return Ok(None);
    }
    // Called for its clause that a text is read in one way, which the proof cites.
    read_body_is_exact();
    let written = match read_body(alloc, text) {
        Ok(written) => written,
        Err(fault) => {
            if is_memory(&fault) {
                return Err(AllocError);
            }
            return Ok(None);
        }
    };
    if !are_all_named(written.named()) {
        return Ok(None);
    }
    let ask = Ask::of_written(alloc, written)?;
    let is_deep = are_printed_deep(alloc, ask.goals())?;
    if is_deep {
        return Ok(None);
    }
    Ok(Some(ask))
}

// The act of the step of this number that asks for the goals that a text says; none where it says none with new variables in order.
fn read_asked(alloc: Global, step: u32, text: &[u8]) -> Result<Option<Act>, AllocError>
    ensures some { IfOk result (λ found. IfSome found (λ act. (gs : List goal_spec) × (act ≡ asks gs) × SaysGoals text.now gs × AreNewInOrder step gs)) }
    ensures none { IfOk result (λ found. IfNone found ((gs : List goal_spec) → SaysGoals text.now gs → ¬ AreNewInOrder step gs)) }
{
    let ask = match read_goals(alloc, text) {
        Ok(Some(ask)) => ask,
        Ok(None) => return Ok(None),
        Err(error) => return Err(error),
    };
    if !are_in_order(ask.variables(), step) {
        return Ok(None);
    }
    let asked = asked_by(alloc, &ask)?;
    Ok(Some(Act::Asked(asked)))
}

// The step of this number that asks for the goals that a text says; none where it says none.
fn asking_step(alloc: Global, step: u32, text: &[u8]) -> Result<Option<Step>, AllocError>
    requires { 1 ≤ step }
    ensures some { IfOk result (λ found. IfSome found (λ s. SaysAsking (decimal step ++ 32 ∷ (codes "- ask " ++ text.now)) s)) }
    ensures none { IfOk result (λ found. IfNone found ((gs : List goal_spec) → SaysGoals text.now gs → ¬ AreNewInOrder step gs)) }
{
    match read_asked(alloc, step, text) {
        Ok(Some(act)) => Ok(Some(Step::new(step, None, act))),
        Ok(None) => Ok(None),
        Err(error) => Err(error),
    }
}

// The step that asks for goals that a line says, as `2 - ask r(_0_1)`; none where it says none. Time and memory grow with the line.
pub(crate) fn read_asking(alloc: Global, line: &[u8]) -> Result<Option<Step>, AllocError>
    ensures some { IfOk result (λ found. IfSome found (λ s. SaysAsking line.now s)) }
    ensures none { IfOk result (λ found. IfNone found ((s : step_spec) → ¬ SaysAsking line.now s)) }
{
    let Some((word, rest)) = cut(line, b' ') else {
        return Ok(None);
    };
    let Some(text) = behind(rest, b"- ask ".as_slice()) else {
        return Ok(None);
    };
    match positive(word) {
        Some(step) => asking_step(alloc, step, text),
        None => Ok(None),
    }
}
