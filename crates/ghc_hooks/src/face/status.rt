// How a goal stands, as found from scratch.
ghost use Rattle.std.specs.Prelude.{◌≡◌, ◌↔◌, IsTrue, IfSome, IfNone, IfOk};
ghost use Rattle.ghc_term.specs.Store.{value_at};

use crate::note::{Note, Verdict};
use crate::trial::try_goal;
use ghc_flat::Program;
use ghc_term::{Goal, GoalView, Store, Variables};
use std::alloc::{AllocError, Global};
use std::marker::Model;

// The kinds of status, one for each pool.
#[derive(Clone, Copy, Drop, PartialEq, Eq)]
pub(crate) enum Kind {
    Ready,
    Waiting,
    Failed,
    Stream,
}

/// The status of a goal: what a try of it found, or that it is a stream goal, which is never tried.
#[derive(Drop)]
pub struct Status {
    note: Option<Note>,
}

impl Model for Status {
    ghost use Rattle.ghc_hooks.specs.Status.{Status};
    ghost use Rattle.ghc_hooks.specs.inner.TriesCode.{status_code};

    ghost Value = { Status };

    ghost coded = { status_code };

    ghost use Rattle.ghc_hooks.specs.inner.Found.{status_found};

    ghost view = { λ s. status_found s.note };
}

impl Status {
    ghost use Rattle.ghc_hooks.specs.Status.{waiting, streaming, HasStatus, IsNoWait};
    ghost use Rattle.ghc_hooks.specs.Verdict.{status_of};
    ghost use Rattle.ghc_hooks.specs.inner.Kinds.{kind_of};

    // The status of the goal, which costs what `try_goal` does.
    pub(crate) fn of(
        alloc: Global,
        program: &Program,
        store: &Store,
        goal: &Goal,
    ) -> Result<Status, AllocError>
        ensures { IfOk result (HasStatus program.now (value_at store.now.held) goal.now) }
    {
        if let GoalView::Stream(_, _) = goal.view() {
            return Ok(Status { note: None });
        }
        let note = try_goal(alloc, program, store, goal)?;
        Ok(Status { note: Some(note) })
    }

    /// What the goal can do, or nothing if it is a stream goal.
    pub fn verdict(&self) -> Option<&Verdict>
        ensures some { IfSome result (λ v. self.now ≡ status_of v.now) }
        ensures none { IfNone result (self.now ≡ streaming) }
    {
        match &self.note {
            Some(note) => Some(note.verdict()),
            None => None,
        }
    }

    // The variables for which the goal waits, if it does.
    pub(crate) fn awaited(&self) -> Option<&Variables>
        ensures some { IfSome result (λ xs. self.now ≡ waiting xs.now) }
        ensures none { IfNone result (IsNoWait self.now) }
    {
        match self.verdict() {
            Some(Verdict::Waiting(awaited)) => Some(awaited),
            _ => None,
        }
    }

    // Which kind of status it is.
    pub(crate) fn kind(&self) -> Kind
        ensures { result ≡ kind_of self.now }
    {
        match self.verdict() {
            Some(Verdict::Ready) => Kind::Ready,
            Some(Verdict::Waiting(_)) => Kind::Waiting,
            Some(Verdict::Failed(_)) => Kind::Failed,
            None => Kind::Stream,
        }
    }
}
