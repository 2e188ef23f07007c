// What is asked for in mid-run, as it is written.
ghost use Rattle.std.specs.Prelude.{◌≡◌};

use ghc_term::{Goal, VarName};
use std::marker::Model;

/// What is asked for: its goals in order, over variables of their own, of which the i-th, by first occurrence, is `_0_i`; and for
/// each of these the variable of the state that it names, or none where it is new. A goal `true` is left out, and no goal is a
/// stream. It is within the limits of a query.
pub struct WrittenAsk {
    pub(crate) goals: Vec<Goal>,
    pub(crate) named: Vec<Option<VarName>>,
}

impl Drop for WrittenAsk {
    fn drop(self) {
        let WrittenAsk {
            goals: _goals,
            named: _named,
        } = self;
    }
}

impl Model for WrittenAsk {
    ghost use Rattle.ghc_reader.specs.WrittenAsk.{WrittenAsk, IsWellPut, ask_code};

    ghost Value = { WrittenAsk };

    ghost coded = { ask_code };

    ghost view = { λ a. record { goals = a.goals.items; named = a.named.items } };

    ghost invariant = { λ a. IsWellPut (record { goals = a.goals.items; named = a.named.items }) };
}

impl WrittenAsk {
    ghost use Rattle.ghc_reader.specs.WrittenAsk.{IsWellPut};

    /// Its goals, in order.
    pub fn goals(&self) -> &[Goal]
        ensures same { result.now ≡ self.now.goals }
        ensures well_put { IsWellPut self.now }
    {
        &self.goals
    }

    /// For each of its variables, by number, the variable of the state that it names, or none.
    pub fn named(&self) -> &[Option<VarName>]
        ensures { result.now ≡ self.now.named }
    {
        &self.named
    }

    /// Goals and variables, given up.
    pub fn into_parts(self) -> (Vec<Goal>, Vec<Option<VarName>>)
        ensures goals { result.0.items ≡ self.goals }
        ensures named { result.1.items ≡ self.named }
        ensures well_put { IsWellPut self }
    {
        let WrittenAsk { goals, named } = self;
        (goals, named)
    }
}
