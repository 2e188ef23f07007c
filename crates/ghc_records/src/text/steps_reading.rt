// Reading lines of steps, one after another.
ghost use Rattle.std.specs.Prelude.{◌≡◌, ◌↔◌, ◌<◌, ◌≤◌, ◌∷◌, ◌++◌, [], ℕ, List, Some, true, drop, length, slice_get, take, IsOk, IfOk, IfSome, IfNone};
ghost use Rattle.ghc_term.specs.Lists.{In};
ghost use Rattle.ghc_records.specs.Numbers.{kept_limit};
ghost use Rattle.ghc_records.specs.Journal.{Step as step_spec};
ghost use Rattle.ghc_records.specs.HistoryText.{IsLineOf, SaysStep, pieces_of};
ghost use Rattle.ghc_records.specs.Sections.{TellsItems};
ghost use Rattle.ghc_records.specs.inner.StepNumbers.{HaveOwnNumbers};

use crate::step::Step;
use crate::text::cutting::next_line;
use crate::text::step_numbers::StepNumbers;
use crate::text::step_reading::read_step;
use std::alloc::{AllocError, Global};

// The step that the first line says, and what follows the line. None where it says none.
fn next_step(alloc: Global, text: &[u8]) -> Result<Option<(Step, &[u8])>, AllocError>
    ensures some { IfOk result (λ found. IfSome found (λ told.
        (line : List ℕ) × (pieces_of text.now ≡ line ∷ pieces_of told.1.now) × SaysStep line told.0)) }
    ensures none { IfOk result (λ found. IfNone found ((line : List ℕ) (s : step_spec) → IsLineOf (pieces_of text.now) 0 line → ¬ SaysStep line s)) }
{
    let Some((line, rest)) = next_line(text) else {
        return Ok(None);
    };
    match read_step(alloc, line) {
        Ok(Some(step)) => Ok(Some((step, rest))),
        Ok(None) => Ok(None),
        Err(error) => Err(error),
    }
}

// The steps that the first lines say, so many at most, with numbers of their own, and what follows these lines. There are fewer
// only where the line after them says no step, or one with the number of another. Each line is gone over once.
pub(crate) fn read_steps(
    alloc: Global,
    text: &[u8],
    count: u32,
) -> Result<(Vec<Step>, &[u8]), AllocError>
    requires few { count ≤ kept_limit }
    ensures none { count ≡ 0 → IsOk result }
    ensures told { IfOk result (λ read. TellsItems SaysStep HaveOwnNumbers (pieces_of text.now) read.0.items) }
    ensures rest { IfOk result (λ read. drop (length read.0.items) (pieces_of text.now) ≡ pieces_of read.1.now) }
    ensures most { IfOk result (λ read. length read.0.items ≤ count) }
    ensures stop { IfOk result (λ read. length read.0.items < count → (s : step_spec) → ¬ TellsItems SaysStep HaveOwnNumbers (pieces_of text.now) (read.0.items ++ s ∷ [])) }
{
    let mut steps = Vec::new(alloc);
    let mut numbers = StepNumbers::new(alloc);
    let rest = read_into(&mut steps, &mut numbers, alloc, text, count)?;
    Ok((steps, rest))
}

// The same, into no steps and no numbers; it gives what follows the lines.
#[inline(always)]
fn read_into<'a>(
    steps: &mut Vec<Step>,
    numbers: &mut StepNumbers,
    alloc: Global,
    text: &'a [u8],
    count: u32,
) -> Result<&'a [u8], AllocError>
    requires few { count ≤ kept_limit }
    requires steps { steps.old.items ≡ [] }
    requires numbers { numbers.old ≡ [] }
    ensures none { count ≡ 0 → IsOk result }
    ensures told { IfOk result (λ _. TellsItems SaysStep HaveOwnNumbers (pieces_of text.now) steps.new.items) }
    ensures rest { IfOk result (λ rest. drop (length steps.new.items) (pieces_of text.now) ≡ pieces_of rest.now) }
    ensures most { IfOk result (λ _. length steps.new.items ≤ count) }
    ensures stop { IfOk result (λ _. length steps.new.items < count → (s : step_spec) → ¬ TellsItems SaysStep HaveOwnNumbers (pieces_of text.now) (steps.new.items ++ s ∷ [])) }
{
    let mut rest = text;
    for _index in 0..count {
        let Some((step, further)) = next_step(alloc, rest)? else {
            return Ok(rest);
        };
        if !numbers.add(step.number())? {
            return Ok(rest);
        }
        steps.push(step)?;
        rest = further;
    }
    Ok(rest)
}

// Whether a number is below the bound, if there is one.
fn is_below(number: u32, bound: Option<u32>) -> bool
    ensures { result ≡ true ↔ IfSome bound (λ next. number < next) }
{
    match bound {
        Some(next) => number < next,
        None => true,
    }
}

// How many of the steps stand in front of the first whose number is not below the bound, if there is one.
pub(crate) fn count_below(steps: &[Step], bound: Option<u32>) -> u32
    requires few { length steps.now ≤ kept_limit }
    ensures most { result ≤ length steps.now }
    ensures below { (s : step_spec) → In s (take result steps.now) → IfSome bound (λ next. s.number < next) }
    ensures stop { (s : step_spec) → slice_get steps.now result ≡ Some s → ¬ IfSome bound (λ next. s.number < next) }
{
    let count = steps.len() as u32;
    for index in 0..count {
        if !is_below(steps[index as usize].number(), bound) {
            return index;
        }
    }
    count
}
