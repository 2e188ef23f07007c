// Steps to be taken, each with all that this takes.
ghost use Rattle.std.specs.Prelude.{◌≡◌, IfOk};
ghost use Rattle.ghc_records.specs.Journal.{took, step_of};
ghost use Rattle.ghc_records.specs.inner.EntryCode.{entry_of};
ghost use Rattle.ghc_records.specs.inner.Handles.{goals_of};

use crate::binding::share_all;
use crate::entry::Entry;
use crate::handles::{Handles, handles_of};
use crate::record::Record;
use ghc_term::Bindings;
use std::alloc::{AllocError, Global};
use std::marker::Model;

/// The record of a step that is to be taken, its entry in the journal, and handles of the goals that it makes and of the terms
/// to which it binds variables. To take it takes no memory but room in each table.
pub struct Addition {
    step: Record,
    entry: Entry,
    makes: Handles,
    binds: Bindings,
}

impl Drop for Addition {
    fn drop(self) {
        let Addition {
            step: _step,
            entry: _entry,
            makes: _makes,
            binds: _binds,
        } = self;
    }
}

impl Model for Addition {
    ghost use Rattle.std.specs.Prelude.{◌≡◌};
    ghost use Rattle.ghc_records.specs.Record.{Record};
    ghost use Rattle.ghc_records.specs.inner.RecordCode.{record_code};
    ghost use Rattle.ghc_records.specs.Journal.{took, step_of};
    ghost use Rattle.ghc_records.specs.inner.EntryCode.{entry_of};
    ghost use Rattle.ghc_records.specs.inner.Handles.{goals_of};

    ghost Value = { Record };

    ghost coded = { record_code };

    ghost view = { λ a. a.step };

    ghost invariant = { λ a. (entry_of a.entry ≡ took (step_of a.step)) × (goals_of a.makes ≡ a.step.effect.makes) × (a.binds ≡ a.step.effect.binds) };
}

// Handles of the goals that the step makes, and its bindings once more.
#[inline(always)]
pub(crate) fn copies_of(alloc: Global, step: &Record) -> Result<(Handles, Bindings), AllocError>
    ensures makes { IfOk result (λ copies. goals_of copies.0 ≡ step.now.effect.makes) }
    ensures binds { IfOk result (λ copies. copies.1 ≡ step.now.effect.binds) }
{
    let effect = step.effect();
    let binds = share_all(alloc, effect.binds())?;
    Ok((handles_of(alloc, effect.piece(), effect.made())?, binds))
}

impl Addition {
    /// What it takes to take this step, with handles of its own: one step for each goal, and what it costs to share the bindings.
    /// It fails where memory is refused, or where a count of handles is full.
    #[inline(always)]
    pub fn of(alloc: Global, step: Record) -> Result<Addition, AllocError>
        ensures { IfOk result (λ a. a ≡ step) }
    {
        let entry = Entry::Took(step.share()?);
        let (makes, binds) = copies_of(alloc, &step)?;
        Ok(Addition {
            step,
            entry,
            makes,
            binds,
        })
    }

    /// The record of the step.
    pub fn step(&self) -> &Record
        ensures { result.now ≡ self.now }
    {
        &self.step
    }

    // The record, its entry, handles of the goals that the step makes, and its bindings.
    pub(crate) fn into_parts(self) -> (Record, Entry, Handles, Bindings)
        ensures record { result.0 ≡ self }
        ensures entry { entry_of result.1 ≡ took (step_of self) }
        ensures makes { goals_of result.2 ≡ self.effect.makes }
        ensures binds { result.3 ≡ self.effect.binds }
    {
        let Addition {
            step,
            entry,
            makes,
            binds,
        } = self;
        (step, entry, makes, binds)
    }
}
