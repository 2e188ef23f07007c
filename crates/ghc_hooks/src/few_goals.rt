// The goals under a variable, of which there are mostly one or two.
ghost use Rattle.std.specs.Prelude.{◌≡◌, ◌∷◌, ◌↔◌, [], length, IfOk, IsTrue, OnOk, OnErr};
ghost use Rattle.std.specs.FinSet as set;

use crate::goal_set::GoalSet;
use ghc_term::GoalName;
use std::alloc::{AllocError, Global};
use std::marker::Model;
use std::slice;

// A set of goals: one or two take no memory, more are found by a look-up.
#[derive(Drop)]
pub struct FewGoals {
    held: Few,
}

#[derive(Drop)]
enum Few {
    Nothing(Global),
    One(Global, GoalName),
    Two(Global, Pair),
    More(Box<GoalSet>),
}

// Two goals.
#[derive(Drop)]
struct Pair {
    goals: [GoalName; 2],
}

impl Model for FewGoals {
    ghost use Rattle.ghc_hooks.specs.Face.{GoalNames};
    ghost use Rattle.ghc_hooks.specs.inner.TriesCode.{goal_names_code};

    ghost Value = { GoalNames };

    ghost coded = { goal_names_code };

    ghost use Rattle.ghc_hooks.specs.inner.FewGoals.{goals_held, HasEachOnce};

    ghost view = { λ f. goals_held f.held };

    ghost invariant = { λ f. HasEachOnce f.held };
}

// The three goals.
fn three(
    alloc: Global,
    first: GoalName,
    second: GoalName,
    third: GoalName,
) -> Result<Box<GoalSet>, AllocError>
    ensures { IfOk result (λ goals. goals.value.held ≡ set.insert (set.insert (set.insert set.empty first) second) third) }
{
    let mut goals = GoalSet::new(alloc);
    insert_three(&mut goals, first, second, third)?;
    Ok(Box::new(alloc, goals)?)
}

// Adds the three goals.
#[inline(always)]
fn insert_three(
    goals: &mut GoalSet,
    first: GoalName,
    second: GoalName,
    third: GoalName,
) -> Result<(), AllocError>
    ensures { OnOk result (goals.new.held ≡ set.insert (set.insert (set.insert goals.old.held first) second) third) }
{
    goals.insert(first)?;
    goals.insert(second)?;
    goals.insert(third)?;
    Ok(())
}

// The first and the second of two goals.
fn parts(pair: &Pair) -> (GoalName, GoalName)
    ensures { pair.now.goals ≡ result.0 ∷ result.1 ∷ [] }
{
    let [first, second] = pair.goals;
    (first, second)
}

impl FewGoals {
    // One goal, which takes no memory.
    pub fn one(alloc: Global, goal: GoalName) -> FewGoals
        ensures { result ≡ set.insert set.empty goal }
    {
        FewGoals {
            held: Few::One(alloc, goal),
        }
    }

    // The goals of the set, each once.
    pub fn members(&self) -> &[GoalName]
        ensures all { set.from_list result.now ≡ self.now }
        ensures once { length result.now ≡ set.len self.now }
    {
        match &self.held {
            Few::Nothing(_) => &[],
            Few::One(_, goal) => slice::from_ref(goal),
            Few::Two(_, pair) => &pair.goals,
            Few::More(goals) => goals.members(),
        }
    }

    // Whether no goal is in the set: one step.
    pub fn is_empty(&self) -> bool
        ensures { IsTrue result ↔ (self.now ≡ set.empty) }
    {
        match &self.held {
            Few::Nothing(_) => true,
            Few::One(_, _) => false,
            Few::Two(_, _) => false,
            Few::More(goals) => goals.is_empty(),
        }
    }

    // Adds the goal: a comparison or two, or one look-up.
    pub fn insert(&mut self, goal: GoalName) -> Result<(), AllocError>
        ensures ok { OnOk result (self.new ≡ set.insert self.old goal) }
        ensures err { OnErr result (self.new ≡ self.old) }
    {
        match &mut self.held {
            Few::Nothing(alloc) => {
                self.held = Few::One(*alloc, goal);
            }
            Few::One(alloc, other) => {
                if *other != goal {
                    let goals = [*other, goal];
                    self.held = Few::Two(*alloc, Pair { goals });
                }
            }
            Few::Two(alloc, pair) => {
                let (first, second) = parts(pair);
                if first != goal && second != goal {
                    self.held = Few::More(three(*alloc, first, second, goal)?);
                }
            }
            Few::More(goals) => {
                goals.insert(goal)?;
            }
        }
        Ok(())
    }

    // Takes the goal out: a comparison or two, or one look-up.
    pub fn remove(&mut self, goal: GoalName)
        ensures { self.new ≡ set.remove self.old goal }
    {
        match &mut self.held {
            Few::Nothing(_) => {}
            Few::One(alloc, other) => {
                if *other == goal {
                    self.held = Few::Nothing(*alloc);
                }
            }
            Few::Two(alloc, pair) => {
                let (first, second) = parts(pair);
                if first == goal {
                    self.held = Few::One(*alloc, second);
                } else if second == goal {
                    self.held = Few::One(*alloc, first);
                }
            }
            Few::More(goals) => {
                goals.remove(goal);
            }
        }
    }
}
