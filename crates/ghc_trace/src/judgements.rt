// How a user judges what calls gave for what they were given, and what seems wrong.
ghost use Rattle.std.specs.Prelude.{◌≡◌, ◌++◌, ◌∷◌, [], OnOk};

use ghc_term::{GoalName, VarName};
use std::alloc::{AllocError, Global};
use std::marker::Model;

/// What a call gave is right for what it was given, or wrong.
#[derive(Clone, Copy, PartialEq, Eq)]
pub enum Judgement {
    Right,
    Wrong,
}

/// How a user judges the call of this name.
#[derive(Clone, Copy)]
pub struct Answer {
    pub goal: GoalName,
    pub judgement: Judgement,
}

/// What seems wrong: the term of a variable, the place of the second variable in the term of the first, or a goal that is there.
#[derive(Clone, Copy)]
pub enum Subject {
    Value(VarName),
    Place(VarName, VarName),
    Goal(GoalName),
}

/// Answers, in the order in which they were told. Contracts see them as a list.
#[derive(Drop)]
pub struct Answers {
    list: Vec<Answer>,
}

impl Model for Answers {
    ghost use Rattle.std.specs.Prelude.{List};
    ghost use Rattle.ghc_trace.specs.declared.judgements.Answer.{Answer as answer};

    ghost Value = { List answer };

    ghost view = { λ answers. answers.list.items };
}

impl Answers {
    /// No answers, which take no memory.
    pub fn new(alloc: Global) -> Answers
        ensures { result ≡ [] }
    {
        Answers {
            list: Vec::new(alloc),
        }
    }

    /// Adds an answer at the end.
    pub fn push(&mut self, answer: Answer) -> Result<(), AllocError>
        ensures { OnOk result (self.new ≡ self.old ++ answer ∷ []) }
    {
        self.list.push(answer)?;
        Ok(())
    }

    /// The answers, in their order.
    pub fn as_slice(&self) -> &[Answer]
        ensures { result.now ≡ self.now }
    {
        self.list.as_slice()
    }
}
