// The words of `blame`: what seems wrong, and what was told right or wrong.
ghost use Rattle.std.specs.Prelude.{◌≡◌, ◌⊎◌, ◌∷◌, IfOk, OnErr, true};
ghost use Rattle.ghc_console.specs.BlameWords.{answer_of, answers_of, blame_of, blame_of_variable, blame_place, blame_term, judgement_of};
ghost use Rattle.ghc_console.specs.LineMemory.{BeginsWithAnswer, BlameTakesMemory, KeepsText};
ghost use Rattle.ghc_console.specs.Words.{is_variable, words_of};

use crate::command::LineCommand;
use crate::word::variable_word;
use crate::words::{goal_name, is_variable_word, next_word};
use ghc_trace::{Answer, Answers, Judgement};
use std::alloc::{AllocError, Global};

// The judgement that the first byte of a word says: `+` or `-`.
fn judgement_in(byte: u8) -> Option<Judgement>
    ensures { result ≡ judgement_of byte }
{
    if byte == b'+' {
        return Some(Judgement::Right);
    }
    if byte == b'-' {
        return Some(Judgement::Wrong);
    }
    None
}

// The answer that a word says: `+` or `-`, and the name of a goal.
fn answer_in(word: &[u8]) -> Option<Answer>
    ensures { result ≡ answer_of word.now }
{
    let Some((first, rest)) = word.split_first() else {
        return None;
    };
    let Some(judgement) = judgement_in(*first) else {
        return None;
    };
    match goal_name(rest) {
        Some(goal) => Some(Answer { goal, judgement }),
        None => None,
    }
}

// The answers that the words say, if each says one.
fn answers_in(alloc: Global, words: &[u8]) -> Result<Option<Answers>, AllocError>
    ensures found { IfOk result (λ answers. answers ≡ answers_of (words_of words.now)) }
    ensures memory { OnErr result (BeginsWithAnswer (words_of words.now)) }
{
    let mut answers = Answers::new(alloc);
    let mut rest = words;
    while let Some((word, behind)) = next_word(rest) {
        let Some(answer) = answer_in(word) else {
            return Ok(None);
        };
        answers.push(answer)?;
        rest = behind;
    }
    Ok(Some(answers))
}

// The command about the place of the second variable in the term of the first.
fn place_command(
    alloc: Global,
    first: &[u8],
    second: &[u8],
    words: &[u8],
) -> Result<LineCommand, AllocError>
    requires first { is_variable first.now ≡ true }
    requires second { is_variable second.now ≡ true }
    ensures command { IfOk result (λ command. command ≡ blame_place first.now second.now (answers_of (words_of words.now))) }
    ensures memory { OnErr result (BeginsWithAnswer (words_of words.now) ⊎ KeepsText (blame_place first.now second.now (answers_of (words_of words.now)))) }
{
    let Some(answers) = answers_in(alloc, words)? else {
        return Ok(LineCommand::Unknown);
    };
    let whole = variable_word(alloc, first)?;
    let place = variable_word(alloc, second)?;
    Ok(LineCommand::BlamePlace(whole, place, answers))
}

// The command about the term of a variable.
fn term_command(alloc: Global, first: &[u8], words: &[u8]) -> Result<LineCommand, AllocError>
    requires { is_variable first.now ≡ true }
    ensures command { IfOk result (λ command. command ≡ blame_term first.now (answers_of (words_of words.now))) }
    ensures memory { OnErr result (BeginsWithAnswer (words_of words.now) ⊎ KeepsText (blame_term first.now (answers_of (words_of words.now)))) }
{
    match answers_in(alloc, words)? {
        Some(answers) => Ok(LineCommand::Blame(variable_word(alloc, first)?, answers)),
        None => Ok(LineCommand::Unknown),
    }
}

// The command about a variable, or a place in its term, where another variable comes next.
fn value_command(alloc: Global, first: &[u8], words: &[u8]) -> Result<LineCommand, AllocError>
    requires { is_variable first.now ≡ true }
    ensures command { IfOk result (λ command. command ≡ blame_of_variable first.now (words_of words.now)) }
    ensures memory { OnErr result (BlameTakesMemory (first.now ∷ words_of words.now) ⊎ KeepsText (blame_of_variable first.now (words_of words.now))) }
{
    let Some((second, behind)) = next_word(words) else {
        return term_command(alloc, first, words);
    };
    if is_variable_word(second) {
        return place_command(alloc, first, second, behind);
    }
    term_command(alloc, first, words)
}

/// The command of the words after `blame`: a variable, two, or a goal, and then any number of answers. It takes memory for the variables
/// and the answers.
pub fn blame_command(alloc: Global, words: &[u8]) -> Result<LineCommand, AllocError>
    ensures command { IfOk result (λ command. command ≡ blame_of (words_of words.now)) }
    ensures memory { OnErr result (BlameTakesMemory (words_of words.now) ⊎ KeepsText (blame_of (words_of words.now))) }
{
    let Some((first, behind)) = next_word(words) else {
        return Ok(LineCommand::Unknown);
    };
    if is_variable_word(first) {
        return value_command(alloc, first, behind);
    }
    let Some(goal) = goal_name(first) else {
        return Ok(LineCommand::Unknown);
    };
    match answers_in(alloc, behind)? {
        Some(answers) => Ok(LineCommand::BlameGoal(goal, answers)),
        None => Ok(LineCommand::Unknown),
    }
}
