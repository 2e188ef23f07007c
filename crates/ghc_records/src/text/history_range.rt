// What the types of the parts of a history say of its steps.
ghost use Rattle.std.specs.Prelude.{◌≡◌, ◌≤◌, All, ℕ, Some};
ghost use Rattle.ghc_term.specs.Tree.{Tree};
ghost use Rattle.ghc_term.specs.Lists.{In};
ghost use Rattle.ghc_term.specs.InputTerm.{IsInputTerm};
ghost use Rattle.ghc_term.specs.declared.goal_name.GoalName.{GoalName as goal_spec};
ghost use Rattle.ghc_fire.specs.declared.act.Act.TheVariants.{ByClause as by_clause, Given as given};
ghost use Rattle.ghc_records.specs.Journal.{Step as step_spec};
ghost use Rattle.ghc_reader.specs.Lexed.{greatest_number};
ghost use Rattle.ghc_records.specs.HistoryLaws.{IsInRange};

use crate::history::History;
use crate::step::Step;
use ghc_fire::Act;

// The numbers of the goal that a step names have 32 bits.
fn goal_is_in_range(step: &Step)
    ensures { (g : goal_spec) → step.now.goal ≡ Some g → (g.step ≤ greatest_number) × (g.place ≤ greatest_number) }
{
    if let Some(goal) = step.goal() {
        let _step = goal.step;
        let _place = goal.place;
    }
}

// The number of the clause that a step names has 32 bits.
fn clause_is_in_range(step: &Step)
    ensures { (k : ℕ) → step.now.act ≡ by_clause k → k ≤ greatest_number }
{
    if let Act::ByClause(number) = step.act() {
        let _number = *number;
    }
}

// The input of a step is an input term.
fn input_is_in_range(step: &Step)
    ensures { (u : Tree) → step.now.act ≡ given u → IsInputTerm u }
{
    if let Act::Given(input) = step.act() {
        let _term = input.as_term();
    }
}

// A step is in the range that a text has: one step.
fn step_is_in_range(step: &Step)
    ensures { IsInRange step.now }
{
    goal_is_in_range(step);
    clause_is_in_range(step);
    input_is_in_range(step);
}

// Each of these steps is in that range: one step for each.
fn steps_are_in_range(steps: &[Step])
    ensures { All IsInRange steps.now }
{
    for step in steps {
        step_is_in_range(step);
    }
}

/// Each step of a history is in the range that a text has, as the types of its parts say: one step for each.
pub fn history_is_in_range(history: &History)
    ensures { (s : step_spec) → In s history.now.steps → IsInRange s }
{
    steps_are_in_range(history.steps());
}
