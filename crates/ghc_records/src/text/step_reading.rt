// Reading the lines of steps, as histories have them.
ghost use Rattle.std.specs.Prelude.{◌≡◌, ◌≢◌, ◌≤◌, ◌∷◌, ◌++◌, ℕ, Some, false, codes, IfOk, IfSome, IfNone};
ghost use Rattle.std.specs.Fmt.{decimal};
ghost use Rattle.ghc_term.specs.declared.fault.Fault.{Fault as fault_spec};
ghost use Rattle.ghc_term.specs.Tree.{Tree};
ghost use Rattle.ghc_reader.specs.Read.{IsReadTerm};
ghost use Rattle.ghc_fire.specs.declared.act.Act.{Act as act_spec};
ghost use Rattle.ghc_fire.specs.declared.act.Act.TheVariants.{Given};
ghost use Rattle.ghc_records.specs.Journal.{Step as step_spec};
ghost use Rattle.ghc_records.specs.StepText.{goal_name_text};
ghost use Rattle.ghc_records.specs.HistoryText.{SaysAct, SaysStep};
ghost use Rattle.ghc_reader.specs.Lexed.{greatest_number};

use crate::step::Step;
use crate::text::cutting::{behind, cut, number, positive};
use ghc_fire::Act;
use ghc_reader::{read_ground_term, read_ground_term_is_exact};
use ghc_term::{Fault, GoalName};
use std::alloc::{AllocError, Global};

// The goal of this step, at the place that a word says.
fn goal_at(step: u32, word: &[u8]) -> Option<GoalName>
    ensures some { IfSome result (λ g. (g.step ≡ step) × (word.now ≡ decimal g.place)) }
    ensures none { IfNone result ((n : ℕ) → n ≤ greatest_number → word.now ≢ decimal n) }
{
    match number(word) {
        Some(place) => Some(GoalName { step, place }),
        None => None,
    }
}

// The goal that a word names, `n.m`.
fn read_goal_name(word: &[u8]) -> Option<GoalName>
    ensures some { IfSome result (λ g. word.now ≡ goal_name_text g) }
    ensures none { IfNone result ((g : GoalName) → g.step ≤ greatest_number → g.place ≤ greatest_number → word.now ≢ goal_name_text g) }
{
    let Some((step, place)) = cut(word, b'.') else {
        return None;
    };
    match number(step) {
        Some(step) => goal_at(step, place),
        None => None,
    }
}

// Whether a refusal says that memory was refused.
pub(crate) fn is_memory(fault: &Fault) -> bool
    ensures { result ≡ false → fault.now ≢ fault_spec.Memory }
{
    matches!(fault, Fault::Memory)
}

// The input of the term that a text says; none where it says none.
fn read_input(alloc: Global, text: &[u8]) -> Result<Option<Act>, AllocError>
    ensures some { IfOk result (λ found. IfSome found (λ act. (u : Tree) × (act ≡ Given u) × IsReadTerm text.now u)) }
    ensures none { IfOk result (λ found. IfNone found ((u : Tree) → ¬ IsReadTerm text.now u)) }
{
    // Called for its clause that a text that is refused says no term, which the proof cites.
    read_ground_term_is_exact();
    match read_ground_term(alloc, text) {
        Ok(term) => Ok(Some(Act::Given(term))),
        Err(fault) => {
            if is_memory(&fault) {
                return Err(AllocError);
            }
            Ok(None)
        }
    }
}

// The act of a word that stands alone: `eq`, `is` or `end`.
fn read_plain_act(bytes: &[u8]) -> Option<Act>
    ensures some { IfSome result (λ act. SaysAct bytes.now act) }
    ensures none { IfNone result ((bytes.now ≢ codes "eq") × (bytes.now ≢ codes "is") × (bytes.now ≢ codes "end")) }
{
    if bytes == b"eq".as_slice() {
        return Some(Act::Unified);
    }
    if bytes == b"is".as_slice() {
        return Some(Act::Assigned);
    }
    if bytes == b"end".as_slice() {
        return Some(Act::Closed);
    }
    None
}

// The act that the bytes say: `by C`, `eq`, `is`, `in T` or `end`; none where they say none.
fn read_act(alloc: Global, bytes: &[u8]) -> Result<Option<Act>, AllocError>
    ensures some { IfOk result (λ found. IfSome found (λ act. SaysAct bytes.now act)) }
    ensures none { IfOk result (λ found. IfNone found ((act : act_spec) → ¬ SaysAct bytes.now act)) }
{
    if let Some(word) = behind(bytes, b"by ".as_slice()) {
        return match positive(word) {
            Some(clause) => Ok(Some(Act::ByClause(clause))),
            None => Ok(None),
        };
    }
    if let Some(text) = behind(bytes, b"in ".as_slice()) {
        return read_input(alloc, text);
    }
    Ok(read_plain_act(bytes))
}

// The step of this number and goal whose act the bytes say; none where they say none.
#[inline(always)]
fn step_with(
    alloc: Global,
    step: u32,
    goal: GoalName,
    bytes: &[u8],
) -> Result<Option<Step>, AllocError>
    ensures some { IfOk result (λ found. IfSome found (λ s. (s.number ≡ step) × (s.goal ≡ Some goal) × SaysAct bytes.now s.act)) }
    ensures none { IfOk result (λ found. IfNone found ((act : act_spec) → ¬ SaysAct bytes.now act)) }
{
    match read_act(alloc, bytes) {
        Ok(Some(act)) => Ok(Some(Step::new(step, Some(goal), act))),
        Ok(None) => Ok(None),
        Err(error) => Err(error),
    }
}

// The step of a line that begins with this number, from what follows the number and a space: the goal consumed, and the act.
#[inline(always)]
fn step_behind(alloc: Global, step: u32, bytes: &[u8]) -> Result<Option<Step>, AllocError>
    requires { 1 ≤ step }
    ensures some { IfOk result (λ found. IfSome found (λ s. SaysStep (decimal step ++ 32 ∷ bytes.now) s)) }
    ensures none { IfOk result (λ found. IfNone found ((s : step_spec) → ¬ SaysStep (decimal step ++ 32 ∷ bytes.now) s)) }
{
    let Some((word, act)) = cut(bytes, b' ') else {
        return Ok(None);
    };
    match read_goal_name(word) {
        Some(goal) => step_with(alloc, step, goal, act),
        None => Ok(None),
    }
}

// The step that a line says, as `1 0.1 by 2`; none where it says none. Time and memory grow with the line.
#[inline(always)]
pub(crate) fn read_step(alloc: Global, line: &[u8]) -> Result<Option<Step>, AllocError>
    ensures some { IfOk result (λ found. IfSome found (λ s. SaysStep line.now s)) }
    ensures none { IfOk result (λ found. IfNone found ((s : step_spec) → ¬ SaysStep line.now s)) }
{
    let Some((word, rest)) = cut(line, b' ') else {
        return Ok(None);
    };
    match positive(word) {
        Some(step) => step_behind(alloc, step, rest),
        None => Ok(None),
    }
}
