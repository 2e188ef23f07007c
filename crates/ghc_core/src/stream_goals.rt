// The name of the goal of each stream, kept in step with the goals.
ghost use Rattle.std.specs.Prelude.{◌≡◌, length, IfOk};
ghost use Rattle.ghc_core.specs.inner.StreamGoals.{told, told_back, opened, renamed, stream_of, first_made as first_made_by};

use crate::changes::carrying::is_stream;
use ghc_records::Record;
use ghc_term::{Goal, GoalName, GoalView};
use std::alloc::{AllocError, Global};
use std::marker::Model;

/// The name of the goal of each stream of the query, in the place of the stream's number; of a closed stream, of its last goal.
#[derive(Drop)]
pub struct StreamGoals {
    names: Vec<GoalName>,
}

impl Model for StreamGoals {
    ghost use Rattle.std.specs.Prelude.{List};
    ghost use Rattle.ghc_term.specs.declared.goal_name.GoalName.{GoalName};
    ghost use Rattle.ghc_core.specs.inner.StreamGoals.{stream_goals_code};

    ghost Value = { List GoalName };

    ghost coded = { stream_goals_code };

    ghost view = { λ s. s.names.items };
}

// The stream of which the step consumed a goal, if it did.
fn consumed_stream(step: &Record) -> Option<u32>
    ensures { result ≡ stream_of step.now.consumed }
{
    let Some(goal) = step.consumed() else {
        return None;
    };
    match goal.view() {
        GoalView::Stream(stream, _) => Some(stream),
        _ => None,
    }
}

// The name of the first goal that the step made, if it made one.
fn first_made(step: &Record) -> Option<GoalName>
    ensures { result ≡ first_made_by step.now.number step.now.effect.makes }
{
    if step.effect().made() == 0 {
        return None;
    }
    Some(GoalName {
        step: step.number(),
        place: 1,
    })
}

impl StreamGoals {
    ghost use Rattle.ghc_core.specs.inner.StreamGoals.{name_of, with_name};

    /// The goals of the streams of a query, before any step, of which there are as many as counted: one look at each.
    pub fn of_query(alloc: Global, goals: &[Goal], count: u32) -> Result<StreamGoals, AllocError>
        requires { count ≡ length goals.now }
        ensures { IfOk result (λ streams. streams ≡ opened 1 goals.now) }
    {
        let mut names = Vec::new(alloc);
        for index in 0..count {
            if is_stream(&goals[index as usize]) {
                names.push(GoalName {
                    step: 0,
                    place: index + 1,
                })?;
            }
        }
        Ok(StreamGoals { names })
    }

    /// The name that stands in the place of this stream, if there is the stream: one step.
    pub fn get(&self, stream: u32) -> Option<GoalName>
        ensures { result ≡ name_of stream self.now }
    {
        if stream == 0 {
            return None;
        }
        match self.names.get((stream - 1) as usize) {
            Some(name) => Some(*name),
            None => None,
        }
    }

    // Puts another name in the place of the stream, if there is the stream: one step.
    fn set(&mut self, stream: u32, name: GoalName)
        ensures { self.new ≡ with_name stream name self.old }
    {
        if stream == 0 {
            return;
        }
        let place = (stream - 1) as usize;
        if place < self.names.len() {
            self.names[place] = name;
        }
    }

    // The same, if a stream and a name are given.
    fn rename(&mut self, stream: Option<u32>, name: Option<GoalName>)
        ensures { self.new ≡ renamed stream name self.old }
    {
        if let (Some(stream), Some(name)) = (stream, name) {
            self.set(stream, name);
        }
    }

    /// Keeps in step with a step that was taken: where it consumed the goal of a stream, the stream goes on with the goal that
    /// the step made, if it made one. One step.
    #[inline(always)]
    pub fn tell(&mut self, step: &Record)
        ensures { self.new ≡ told step.now self.old }
    {
        self.rename(consumed_stream(step), first_made(step));
    }

    /// Keeps in step with a step that was taken away: where it consumed the goal of a stream, this is the stream's again. One step.
    pub fn tell_back(&mut self, step: &Record)
        ensures { self.new ≡ told_back step.now self.old }
    {
        self.rename(consumed_stream(step), step.goal());
    }
}
