// What was found when a goal was tried.
ghost use Rattle.std.specs.Prelude.{◌≡◌, IsTrue};
ghost use Rattle.std.specs.FinSet as set;
ghost use Rattle.ghc_hooks.specs.Status.{ready, waiting, failed};

use ghc_term::{Fault, VarName, Variables};
use std::marker::Model;

/// What a goal that was tried can do.
#[derive(Drop)]
pub enum Verdict {
    /// It can be reduced.
    Ready,
    /// It waits for one of these variables.
    Waiting(Variables),
    /// It can never be reduced, for this cause.
    Failed(Fault),
}

/// A verdict with the variables that were looked at to find it, those for which the goal waits among them.
#[derive(Drop)]
pub struct Note {
    verdict: Verdict,
    looked: Variables,
}

impl Model for Note {
    ghost use Rattle.ghc_hooks.specs.Notes.{Note};
    ghost use Rattle.ghc_hooks.specs.inner.TriesCode.{note_code};

    ghost Value = { Note };

    ghost coded = { note_code };

    ghost use Rattle.ghc_hooks.specs.Verdict.{status_of, AwaitsWhatItLooksAt};

    ghost view = { λ n. record { status = status_of n.verdict; looked = n.looked } };

    ghost invariant = { λ n. AwaitsWhatItLooksAt (record { status = status_of n.verdict; looked = n.looked }) };
}

impl Note {
    ghost use Rattle.ghc_term.specs.declared.var_name.VarName.{VarName};
    ghost use Rattle.ghc_hooks.specs.Verdict.{status_of, AwaitsWhatItLooksAt};

    /// The note of a goal that can be reduced and looked at these variables.
    pub fn ready(looked: Variables) -> Note
        ensures status { result.status ≡ ready }
        ensures looked { result.looked ≡ looked }
    {
        Note {
            verdict: Verdict::Ready,
            looked,
        }
    }

    /// The note of a goal that waits for some of the variables that it looked at.
    pub fn waiting(awaited: Variables, looked: Variables) -> Note
        requires { (x : VarName) → IsTrue (set.contains awaited x) → IsTrue (set.contains looked x) }
        ensures status { result.status ≡ waiting awaited }
        ensures looked { result.looked ≡ looked }
    {
        Note {
            verdict: Verdict::Waiting(awaited),
            looked,
        }
    }

    /// The note of a goal that looked at these variables and can never be reduced.
    pub fn failed(cause: Fault, looked: Variables) -> Note
        ensures status { result.status ≡ failed cause }
        ensures looked { result.looked ≡ looked }
    {
        Note {
            verdict: Verdict::Failed(cause),
            looked,
        }
    }

    /// A goal waits for nothing that it did not look at. This costs nothing.
    pub fn waits_for_what_it_looked_at(&self)
        ensures { AwaitsWhatItLooksAt self.now }
    {
        let _verdict = &self.verdict;
    }

    /// What the goal can do.
    pub fn verdict(&self) -> &Verdict
        ensures { self.now.status ≡ status_of result.now }
    {
        &self.verdict
    }

    /// The variables that the goal looked at.
    pub fn looked(&self) -> &Variables
        ensures { result.now ≡ self.now.looked }
    {
        &self.looked
    }
}
