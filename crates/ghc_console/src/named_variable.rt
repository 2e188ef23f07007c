// The variable that a word of the console names.
ghost use Rattle.std.specs.Prelude.{◌≡◌, ◌≢◌, ◌<◌, ◌↔◌, All, HoldsAt, IsTrue, IfSome, IfNone, codes, length};
ghost use Rattle.ghc_term.specs.declared.var_name.VarName.{VarName as var_name};
ghost use Rattle.ghc_console.specs.VariableNamed.{IsVariableNamed, IsGivenName, numbered_of, variable_numbered};

use crate::words::{first, number};
use ghc_core::{Core, is_variable_of};
use ghc_reader::Query;
use ghc_term::{Name, VarName};

// Where the word stands among the names.
fn index_of(names: &[Name], word: &[u8]) -> Option<usize>
    ensures bound { IfSome result (λ i. i < length names.now) }
    ensures found { IfSome result (HoldsAt (λ name. name ≡ word.now) names.now) }
    ensures none { IfNone result (All (λ name. name ≢ word.now) names.now) }
{
    names
        .iter()
        .position(|name| name.as_str().as_bytes() == word)
}

// Whether the word is the one that names no variable.
fn is_blank(word: &[u8]) -> bool
    ensures { IsTrue result ↔ (word.now ≡ codes "_") }
{
    word == b"_".as_slice()
}

// The variable of the query to which it gives the name, but for `_`.
fn given_name(query: &Query, word: &[u8]) -> Option<VarName>
    ensures found { IfSome result (IsGivenName query.now.variables word.now) }
    ensures none { IfNone result ((x : var_name) → ¬ IsGivenName query.now.variables word.now x) }
{
    if is_blank(word) {
        return None;
    }
    // Called for its clause that a query is within the limits, which the proof cites.
    let _goals = query.goals();
    match index_of(query.variables(), word) {
        Some(index) => Some(VarName {
            step: 0,
            place: index as u32 + 1,
        }),
        None => None,
    }
}

// The variable of a step and a place, where both are there.
fn variable_of(step: Option<u32>, place: Option<u32>) -> Option<VarName>
    ensures { result ≡ variable_numbered step place }
{
    match (step, place) {
        (Some(step), Some(place)) => Some(VarName { step, place }),
        _ => None,
    }
}

// The variable that a word `_n_m` names by its numbers.
fn numbered(word: &[u8]) -> Option<VarName>
    ensures { result ≡ numbered_of word.now }
{
    match word.split_first() {
        Some((b'_', numbers)) => match first(numbers, b'_') {
            Some(bar) => variable_of(number(&numbers[..bar]), number(&numbers[bar + 1..])),
            None => None,
        },
        _ => None,
    }
}

/// The variable that the word names: one of the query by its name, but for `_`; or `_n_m`, where the query has it or a kept
/// step made it. One look at each name of the query, and one look-up in the record.
pub fn variable_named(core: &Core, word: &[u8]) -> Option<VarName>
    ensures found { IfSome result (IsVariableNamed core.now.world word.now) }
    ensures none { IfNone result ((x : var_name) → ¬ IsVariableNamed core.now.world word.now x) }
{
    if let Some(x) = given_name(core.query(), word) {
        return Some(x);
    }
    match numbered(word) {
        Some(x) if is_variable_of(core, x) => Some(x),
        _ => None,
    }
}
