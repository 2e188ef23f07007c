// Clauses of programs.
ghost use Rattle.std.specs.Prelude.{◌≡◌, ℕ, ◌+◌, length, slice_get};
ghost use Rattle.ghc_term.specs.declared.var_name.VarName.{VarName};

use crate::test::Test;
use ghc_term::{Goal, Name, Term};
use std::marker::Model;

/// A clause `name(head) :- tests | body.`; the i-th of its variables, by first occurrence, is `_0_i`. A goal `true` of the
/// body is left out. No variable stands twice in its head, and each variable of its tests stands there. It has at most
/// 1,000 goals, 1,000 variables, and 255 arguments of a goal; `head_variables` says so, as a part of `IsWellMade`.
pub struct Clause {
    pub(crate) name: Name,
    pub(crate) head: Vec<Term>,
    pub(crate) tests: Vec<Test>,
    pub(crate) body: Vec<Goal>,
    // how many variables stand in the head
    pub(crate) head_variables: u32,
    // how many variables of the body do not
    pub(crate) fresh: u32,
}

impl Drop for Clause {
    fn drop(self) {
        let Clause {
            name: _name,
            head: _head,
            tests: _tests,
            body: _body,
            head_variables: _,
            fresh: _,
        } = self;
    }
}

impl Model for Clause {
    ghost use Rattle.std.specs.Prelude.{◌≡◌, length};
    ghost use Rattle.ghc_flat.specs.Clause.{Clause};
    ghost use Rattle.ghc_flat.specs.inner.ClauseCode.{clause_code};

    ghost Value = { Clause };

    ghost coded = { clause_code };

    ghost use Rattle.ghc_flat.specs.Flat.{IsWellMade};
    ghost use Rattle.ghc_flat.specs.inner.Counting.{Rises};
    ghost use Rattle.ghc_flat.specs.Variables.{variables_of_list, fresh_variables};

    ghost view = { λ c. record { name = c.name; head = c.head.items; tests = c.tests.items; body = c.body.items } };

    ghost invariant = { λ c. IsWellMade (record { name = c.name; head = c.head.items; tests = c.tests.items; body = c.body.items })
        × (c.head_variables ≡ length (variables_of_list c.head.items))
        × Rises 0 (variables_of_list c.head.items)
        × (c.fresh ≡ length (fresh_variables (record { name = c.name; head = c.head.items; tests = c.tests.items; body = c.body.items }))) };
}

impl Clause {
    ghost use Rattle.ghc_flat.specs.Flat.{IsWellMade};
    ghost use Rattle.ghc_flat.specs.Samples.{asked};
    ghost use Rattle.ghc_flat.specs.Variables.{variables_of_list, fresh_variables};

    /// The name of its predicate.
    pub fn name(&self) -> &Name
        ensures { result.now ≡ self.now.name }
    {
        &self.name
    }

    /// The arguments of its head.
    pub fn head(&self) -> &[Term]
        ensures { result.now ≡ self.now.head }
    {
        &self.head
    }

    /// The tests of its guard, in order.
    pub fn tests(&self) -> &[Test]
        ensures { result.now ≡ self.now.tests }
    {
        &self.tests
    }

    /// The goals of its body, in order.
    pub fn body(&self) -> &[Goal]
        ensures { result.now ≡ self.now.body }
    {
        &self.body
    }

    /// How many variables stand in its head: one step. They are `_0_1` up to this number. The i-th fresh variable of the
    /// body, one that does not stand in the head, has the i-th number after this.
    pub fn head_variables(&self) -> u32
        ensures count { result ≡ length (variables_of_list self.now.head) }
        ensures fresh { (i : ℕ) (x : VarName) → slice_get (fresh_variables self.now) i ≡ Some x → x ≡ asked (result + i + 1) }
        ensures well_made { IsWellMade self.now }
    {
        self.head_variables
    }

    /// How many variables of its body do not stand in its head: one step.
    pub fn fresh(&self) -> u32
        ensures { result ≡ length (fresh_variables self.now) }
    {
        self.fresh
    }
}
