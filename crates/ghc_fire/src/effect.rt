// What a step reads, binds and makes.
ghost use Rattle.std.specs.Prelude.{◌≡◌, ◌≤◌, ◌↔◌, length, IfOk, IsTrue};
ghost use Rattle.ghc_flat.specs.Flat.{most_goals};

use crate::made::Made;
pub use ghc_term::NO_STEP;
use ghc_term::{Bindings, Goal, Variables};
use std::alloc::{AllocError, Global};
use std::marker::Model;

/// The effect of a step: the variables that it reads, what it binds, the goals that it makes in order, at most 1,000, and how
/// many variables it makes.
pub struct Effect {
    reads: Variables,
    binds: Bindings,
    makes: Made,
}

impl Drop for Effect {
    fn drop(self) {
        let Effect {
            reads: _reads,
            binds: _binds,
            makes: _makes,
        } = self;
    }
}

impl Model for Effect {
    ghost use Rattle.ghc_fire.specs.Effect.{Effect};
    ghost use Rattle.ghc_fire.specs.inner.EffectCode.{effect_code};

    ghost Value = { Effect };

    ghost coded = { effect_code };

    ghost use Rattle.std.specs.Prelude.{◌≤◌, length};
    ghost use Rattle.ghc_flat.specs.Flat.{most_goals};

    ghost view = { λ e. record { reads = e.reads; binds = e.binds; makes = e.makes.goals; fresh = e.makes.fresh } };

    ghost invariant = { λ e. length e.makes.goals ≤ most_goals };
}

// Whether the lists have the same goals in the same order.
fn same_goals(alloc: Global, lefts: &[Goal], rights: &[Goal]) -> Result<bool, AllocError>
    ensures { IfOk result (λ same. IsTrue same ↔ (lefts.now ≡ rights.now)) }
{
    if lefts.len() != rights.len() {
        return Ok(false);
    }
    for index in 0..lefts.len() {
        if !lefts[index].same(alloc, &rights[index])? {
            return Ok(false);
        }
    }
    Ok(true)
}

impl Effect {
    /// The effect of these parts, with no more goals than a body may have.
    pub fn new(reads: Variables, binds: Bindings, makes: Made) -> Effect
        requires { length makes.goals ≤ most_goals }
        ensures reads { result.reads ≡ reads }
        ensures binds { result.binds ≡ binds }
        ensures makes { result.makes ≡ makes.goals }
        ensures fresh { result.fresh ≡ makes.fresh }
    {
        Effect {
            reads,
            binds,
            makes,
        }
    }

    /// The variables that the step reads.
    pub fn reads(&self) -> &Variables
        ensures { result.now ≡ self.now.reads }
    {
        &self.reads
    }

    /// What the step binds.
    pub fn binds(&self) -> &Bindings
        ensures { result.now ≡ self.now.binds }
    {
        &self.binds
    }

    /// The goals that the step makes, in order.
    pub fn makes(&self) -> &[Goal]
        ensures { result.now ≡ self.now.makes }
    {
        self.makes.as_slice()
    }

    /// What the step makes, as it is held.
    pub fn piece(&self) -> &Made
        ensures goals { result.now.goals ≡ self.now.makes }
        ensures fresh { result.now.fresh ≡ self.now.fresh }
    {
        &self.makes
    }

    /// How many goals the step makes.
    pub fn made(&self) -> u32
        ensures { result ≡ length self.now.makes }
    {
        self.makes.as_slice().len() as u32
    }

    /// How many variables the step makes.
    pub fn fresh(&self) -> u32
        ensures { result ≡ self.now.fresh }
    {
        self.makes.fresh()
    }

    /// What the step reads, binds and makes, given up.
    pub fn into_parts(self) -> (Variables, Bindings, Made)
        ensures reads { result.0 ≡ self.reads }
        ensures binds { result.1 ≡ self.binds }
        ensures makes { result.2.goals ≡ self.makes }
        ensures few { length self.makes ≤ most_goals }
        ensures fresh { result.2.fresh ≡ self.fresh }
    {
        let Effect {
            reads,
            binds,
            makes,
        } = self;
        (reads, binds, makes)
    }

    /// Whether the other is the same effect. It goes once through both, up to the first difference.
    pub fn same(&self, alloc: Global, other: &Effect) -> Result<bool, AllocError>
        ensures { IfOk result (λ same. IsTrue same ↔ (self.now ≡ other.now)) }
    {
        if self.fresh() != other.fresh() || !self.reads().same(other.reads()) {
            return Ok(false);
        }
        if !self.binds().same(alloc, other.binds())? {
            return Ok(false);
        }
        same_goals(alloc, self.makes(), other.makes())
    }
}
