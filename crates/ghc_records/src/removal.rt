// Steps to be taken away, each with all that this takes.
ghost use Rattle.std.specs.Prelude.{◌≡◌, length, IfOk};

use crate::record::Record;
use ghc_fire::MadeGoal;
use std::alloc::AllocError;
use std::marker::Model;

/// The record of a step that is to be taken away, a handle of the goal that it consumed, and how many goals it made. To take it
/// away takes no memory but the room for an entry in each table.
pub struct Removal {
    step: Record,
    consumed: Option<MadeGoal>,
    made: u32,
}

impl Drop for Removal {
    fn drop(self) {
        let Removal {
            step: _step,
            consumed: _consumed,
            made: _,
        } = self;
    }
}

impl Model for Removal {
    ghost use Rattle.std.specs.Prelude.{◌≡◌, length};
    ghost use Rattle.ghc_records.specs.Record.{Record};
    ghost use Rattle.ghc_records.specs.inner.RecordCode.{record_code};

    ghost Value = { Record };

    ghost coded = { record_code };

    ghost view = { λ r. r.step };

    ghost invariant = { λ r. (r.consumed ≡ r.step.consumed) × (r.made ≡ length r.step.effect.makes) };
}

impl Removal {
    /// What it takes to take this step away, with handles of its own: one step. Fails where a count of handles is full.
    pub fn of(step: &Record) -> Result<Removal, AllocError>
        ensures { IfOk result (λ r. r ≡ step.now) }
    {
        let made = step.effect().made();
        let consumed = step.share_consumed()?;
        Ok(Removal {
            step: step.share()?,
            consumed,
            made,
        })
    }

    /// The record of the step.
    pub fn step(&self) -> &Record
        ensures { result.now ≡ self.now }
    {
        &self.step
    }

    // The record, the goal that its step consumed, and how many goals that made.
    pub(crate) fn into_parts(self) -> (Record, Option<MadeGoal>, u32)
        ensures record { result.0 ≡ self }
        ensures consumed { result.1 ≡ self.consumed }
        ensures made { result.2 ≡ length self.effect.makes }
    {
        let Removal {
            step,
            consumed,
            made,
        } = self;
        (step, consumed, made)
    }
}
