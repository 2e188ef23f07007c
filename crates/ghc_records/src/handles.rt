// Handles of the goals that a step makes, to be put among the goals of a state.
ghost use Rattle.std.specs.Prelude.{◌≡◌, length, IfOk};
ghost use Rattle.ghc_records.specs.inner.Handles.{goals_of};

use ghc_fire::{Made, MadeGoal};
use std::alloc::{AllocError, Global};

// Handles of goals, in order: one or two without memory of their own.
#[derive(Drop)]
pub(crate) enum Handles {
    Nothing,
    One(MadeGoal),
    Two(MadeGoal, MadeGoal),
    More(Vec<MadeGoal>),
}

// A list of handles of the goals, of which there are as many as counted.
fn list_of(alloc: Global, made: &Made, count: u32) -> Result<Vec<MadeGoal>, AllocError>
    requires { count ≡ length made.now.goals }
    ensures { IfOk result (λ handles. handles.items ≡ made.now.goals) }
{
    let mut handles = Vec::new(alloc);
    handles.reserve_exact(count as usize)?;
    for index in 0..count {
        handles.push(made.goal(index)?)?;
    }
    Ok(handles)
}

// Handles of the goals, of which there are as many as counted: one step for each. It fails where memory is refused, or where a
// count of handles is full.
#[inline(always)]
pub(crate) fn handles_of(alloc: Global, made: &Made, count: u32) -> Result<Handles, AllocError>
    requires { count ≡ length made.now.goals }
    ensures { IfOk result (λ handles. goals_of handles ≡ made.now.goals) }
{
    match count {
        0 => Ok(Handles::Nothing),
        1 => Ok(Handles::One(made.goal(0)?)),
        2 => Ok(Handles::Two(made.goal(0)?, made.goal(1)?)),
        _ => Ok(Handles::More(list_of(alloc, made, count)?)),
    }
}
