// What a step makes: its goals, in one shared piece, with handles of single ones, and how many variables.
ghost use Rattle.std.specs.Prelude.{◌≡◌, ◌<◌, [], ◌∷◌, length, option_copied, IfOk};
ghost use Rattle.ghc_fire.specs.inner.Made.{goals_in, number_in, goal_at};

use ghc_term::Goal;
use std::alloc::{AllocError, Global};
use std::marker::Model;
use std::sync::Arc;

// Goals in order: none without memory, one to four in one piece, and more in a list. Before the piece stands a number, which takes no
// memory there: what it counts is up to the type that holds this.
#[derive(Drop)]
enum Piece {
    Nothing(u32),
    One(u32, Arc<[Goal; 1]>),
    Two(u32, Arc<[Goal; 2]>),
    Three(u32, Arc<[Goal; 3]>),
    Four(u32, Arc<[Goal; 4]>),
    More(u32, Arc<Vec<Goal>>),
}

impl Piece {
    // The goals, in order.
    #[inline(always)]
    fn goals(&self) -> &[Goal]
        ensures { result.now ≡ goals_in self.now }
    {
        match self {
            Piece::Nothing(_) => &[],
            Piece::One(_, goals) => &**goals,
            Piece::Two(_, goals) => &**goals,
            Piece::Three(_, goals) => &**goals,
            Piece::Four(_, goals) => &**goals,
            Piece::More(_, goals) => goals.as_slice(),
        }
    }

    // The number.
    #[inline(always)]
    fn number(&self) -> u32
        ensures { result ≡ number_in self.now }
    {
        match self {
            Piece::Nothing(number) => *number,
            Piece::One(number, _) => *number,
            Piece::Two(number, _) => *number,
            Piece::Three(number, _) => *number,
            Piece::Four(number, _) => *number,
            Piece::More(number, _) => *number,
        }
    }

    // The same goals with another number: one step. Fails where a count of handles is full.
    #[inline(always)]
    fn share(&self, number: u32) -> Result<Piece, AllocError>
        ensures goals { IfOk result (λ piece. goals_in piece ≡ goals_in self.now) }
        ensures number { IfOk result (λ piece. number_in piece ≡ number) }
    {
        match self {
            Piece::Nothing(_) => Ok(Piece::Nothing(number)),
            Piece::One(_, goals) => Ok(Piece::One(number, Arc::try_clone(goals)?)),
            Piece::Two(_, goals) => Ok(Piece::Two(number, Arc::try_clone(goals)?)),
            Piece::Three(_, goals) => Ok(Piece::Three(number, Arc::try_clone(goals)?)),
            Piece::Four(_, goals) => Ok(Piece::Four(number, Arc::try_clone(goals)?)),
            Piece::More(_, goals) => Ok(Piece::More(number, Arc::try_clone(goals)?)),
        }
    }
}

/// What a step makes: goals, in order, in one shared piece, and how many variables.
#[derive(Drop)]
pub struct Made {
    // the number counts the variables
    piece: Piece,
}

impl Model for Made {
    ghost use Rattle.ghc_fire.specs.Made.{Made};
    ghost use Rattle.ghc_fire.specs.inner.MadeCode.{made_code};
    ghost use Rattle.ghc_fire.specs.inner.Made.{goals_in, number_in};

    ghost Value = { Made };

    ghost coded = { made_code };

    ghost view = { λ m. record { goals = goals_in m.piece; fresh = number_in m.piece } };
}

/// One of the goals that a step makes, held in the piece of all of them. Contracts see the goal.
#[derive(Drop)]
pub struct MadeGoal {
    // the number is the index of the goal
    piece: Piece,
}

impl Model for MadeGoal {
    ghost use Rattle.std.specs.Prelude.{◌<◌, length};
    ghost use Rattle.ghc_term.specs.Goal.{Goal};
    ghost use Rattle.ghc_term.specs.inner.GoalCode.{goal_code};
    ghost use Rattle.ghc_fire.specs.inner.Made.{goals_in, number_in, goal_at};

    ghost Value = { Goal };

    ghost coded = { goal_code };

    ghost view = { λ g. goal_at (goals_in g.piece) (number_in g.piece) };

    ghost invariant = { λ g. number_in g.piece < length (goals_in g.piece) };
}

// The goal that a step consumes, if it consumes one, held in the piece of all that were made with it. Contracts see the goal.
#[derive(Drop)]
pub(crate) struct Consumed {
    // the number is the index of the goal
    piece: Piece,
}

impl Model for Consumed {
    ghost use Rattle.std.specs.Prelude.{Option, slice_get};
    ghost use Rattle.std.specs.Coded.{coded_option};
    ghost use Rattle.ghc_term.specs.Goal.{Goal};
    ghost use Rattle.ghc_term.specs.inner.GoalCode.{goal_code};
    ghost use Rattle.ghc_fire.specs.inner.Made.{goals_in, number_in};

    ghost Value = { Option Goal };

    ghost coded = { coded_option goal_code };

    ghost view = { λ c. slice_get (goals_in c.piece) (number_in c.piece) };
}

impl Made {
    /// No goals, which take no memory, and so many variables.
    #[inline(always)]
    pub fn none(fresh: u32) -> Made
        ensures { result ≡ record { goals = []; fresh = fresh } }
    {
        Made {
            piece: Piece::Nothing(fresh),
        }
    }

    /// One goal and so many variables. It fails only where memory is refused.
    pub fn one(alloc: Global, goal: Goal, fresh: u32) -> Result<Made, AllocError>
        ensures { IfOk result (λ made. made ≡ record { goals = goal ∷ []; fresh = fresh }) }
    {
        match Arc::new(alloc, [goal]) {
            Ok(goals) => Ok(Made {
                piece: Piece::One(fresh, goals),
            }),
            Err(_) => Err(AllocError),
        }
    }

    /// Two goals and so many variables. It fails only where memory is refused.
    pub fn two(alloc: Global, first: Goal, second: Goal, fresh: u32) -> Result<Made, AllocError>
        ensures { IfOk result (λ made. made ≡ record { goals = first ∷ second ∷ []; fresh = fresh }) }
    {
        match Arc::new(alloc, [first, second]) {
            Ok(goals) => Ok(Made {
                piece: Piece::Two(fresh, goals),
            }),
            Err(_) => Err(AllocError),
        }
    }

    /// Three goals and so many variables. It fails only where memory is refused.
    pub fn three(
        alloc: Global,
        first: Goal,
        second: Goal,
        third: Goal,
        fresh: u32,
    ) -> Result<Made, AllocError>
        ensures { IfOk result (λ made. made ≡ record { goals = first ∷ second ∷ third ∷ []; fresh = fresh }) }
    {
        match Arc::new(alloc, [first, second, third]) {
            Ok(goals) => Ok(Made {
                piece: Piece::Three(fresh, goals),
            }),
            Err(_) => Err(AllocError),
        }
    }

    /// Four goals and so many variables. It fails only where memory is refused.
    pub fn four(alloc: Global, goals: [Goal; 4], fresh: u32) -> Result<Made, AllocError>
        ensures { IfOk result (λ made. made ≡ record { goals = goals; fresh = fresh }) }
    {
        match Arc::new(alloc, goals) {
            Ok(goals) => Ok(Made {
                piece: Piece::Four(fresh, goals),
            }),
            Err(_) => Err(AllocError),
        }
    }

    /// The goals of the list and so many variables. It fails only where memory is refused.
    pub fn of(alloc: Global, goals: Vec<Goal>, fresh: u32) -> Result<Made, AllocError>
        ensures { IfOk result (λ made. made ≡ record { goals = goals.items; fresh = fresh }) }
    {
        if goals.is_empty() {
            return Ok(Made::none(fresh));
        }
        match Arc::new(alloc, goals) {
            Ok(goals) => Ok(Made {
                piece: Piece::More(fresh, goals),
            }),
            Err(_) => Err(AllocError),
        }
    }

    /// The goals, in order.
    #[inline(always)]
    pub fn as_slice(&self) -> &[Goal]
        ensures { result.now ≡ self.now.goals }
    {
        self.piece.goals()
    }

    /// How many variables are made.
    #[inline(always)]
    pub fn fresh(&self) -> u32
        ensures { result ≡ self.now.fresh }
    {
        self.piece.number()
    }

    /// A handle of the goal at this index: one step. Fails where a count of handles is full.
    #[inline(always)]
    pub fn goal(&self, index: u32) -> Result<MadeGoal, AllocError>
        requires { index < length self.now.goals }
        ensures { IfOk result (λ goal. goal ≡ goal_at self.now.goals index) }
    {
        Ok(MadeGoal {
            piece: self.piece.share(index)?,
        })
    }
}

impl MadeGoal {
    /// A handle of a goal in a piece of its own. It fails only where memory is refused.
    pub fn alone(alloc: Global, goal: Goal) -> Result<MadeGoal, AllocError>
        ensures { IfOk result (λ made. made ≡ goal) }
    {
        match Arc::new(alloc, [goal]) {
            Ok(goals) => Ok(MadeGoal {
                piece: Piece::One(0, goals),
            }),
            Err(_) => Err(AllocError),
        }
    }

    /// The goal: one step.
    #[inline(always)]
    pub fn goal(&self) -> &Goal
        ensures { result.now ≡ self.now }
    {
        &self.piece.goals()[self.piece.number() as usize]
    }

    /// The same once more: one step. Fails where a count of handles is full.
    #[inline(always)]
    pub fn share(&self) -> Result<MadeGoal, AllocError>
        ensures { IfOk result (λ goal. goal ≡ self.now) }
    {
        Ok(MadeGoal {
            piece: self.piece.share(self.piece.number())?,
        })
    }
}

impl Consumed {
    // That goal, or none.
    #[inline(always)]
    pub(crate) fn of(goal: Option<MadeGoal>) -> Consumed
        ensures { result ≡ goal }
    {
        match goal {
            Some(MadeGoal { piece }) => Consumed { piece },
            None => Consumed {
                piece: Piece::Nothing(0),
            },
        }
    }

    // The goal, if there is one: one step.
    #[inline(always)]
    pub(crate) fn goal(&self) -> Option<&Goal>
        ensures { option_copied result ≡ self.now }
    {
        self.piece.goals().get(self.piece.number() as usize)
    }

    // A handle of the goal, if there is one: one step. Fails where a count of handles is full.
    pub(crate) fn share(&self) -> Result<Option<MadeGoal>, AllocError>
        ensures { IfOk result (λ goal. goal ≡ self.now) }
    {
        if self.goal().is_none() {
            return Ok(None);
        }
        let piece = self.piece.share(self.piece.number())?;
        Ok(Some(MadeGoal { piece }))
    }
}
