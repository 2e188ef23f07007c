// Programs and queries as they are written, in the terms of the language.
ghost use Rattle.std.specs.Prelude.{◌≡◌};

use ghc_term::{Comparison, Expr, Goal, Name, Term};
use std::marker::Model;

/// A guard as it is written. Which goals may be one is for the checker to say.
#[derive(Drop)]
pub enum Guard {
    /// A goal.
    Item(Goal),
    /// A comparison of two expressions.
    Comparison(Comparison, Expr, Expr),
}

/// A clause as it is written: `name(head) :- guards | body.` The i-th of its variables, by first occurrence, is `_0_i`. A
/// goal `true` of the body is left out.
#[derive(Drop)]
pub struct WrittenClause {
    pub name: Name,
    pub head: Vec<Term>,
    pub guards: Vec<Guard>,
    pub body: Vec<Goal>,
    /// The names of the variables, by number.
    pub variables: Vec<Name>,
}

impl Model for WrittenClause {
    ghost use Rattle.ghc_reader.specs.Written.{WrittenClause};
    ghost use Rattle.ghc_reader.specs.inner.WrittenCode.{clause_code};

    ghost Value = { WrittenClause };

    ghost coded = { clause_code };

    ghost view = { λ c. record { name = c.name; head = c.head.items; guards = c.guards.items; body = c.body.items; variables = c.variables.items } };
}

/// A program as it is written: its clauses in order, at most 10,000, and each within the limits of a clause.
pub struct Source {
    pub(crate) clauses: Vec<WrittenClause>,
}

impl Drop for Source {
    fn drop(self) {
        let Source { clauses: _clauses } = self;
    }
}

impl Model for Source {
    ghost use Rattle.std.specs.Prelude.{List};
    ghost use Rattle.ghc_reader.specs.Written.{WrittenClause, AreWellWritten};
    ghost use Rattle.ghc_reader.specs.inner.WrittenCode.{source_code};

    ghost Value = { List WrittenClause };

    ghost coded = { source_code };

    ghost view = { λ s. s.clauses.items };

    ghost invariant = { λ s. AreWellWritten s.clauses.items };
}

impl Source {
    ghost use Rattle.ghc_reader.specs.Written.{AreWellWritten};

    /// Its clauses.
    pub fn clauses(&self) -> &[WrittenClause]
        ensures same { result.now ≡ self.now }
        ensures well_written { AreWellWritten self.now }
    {
        &self.clauses
    }

    /// Its clauses, given up.
    pub fn into_clauses(self) -> Vec<WrittenClause>
        ensures same { result.items ≡ self }
        ensures well_written { AreWellWritten self }
    {
        let Source { clauses } = self;
        clauses
    }
}

/// A query as it is written: its goals in order, and the names of its variables. The i-th of them, by first occurrence,
/// is `_0_i`. A goal `true` is left out, and the k-th goal `instream(S)` is stream k. It is within the limits of a query.
pub struct Query {
    pub(crate) goals: Vec<Goal>,
    pub(crate) variables: Vec<Name>,
}

impl Drop for Query {
    fn drop(self) {
        let Query {
            goals: _goals,
            variables: _variables,
        } = self;
    }
}

impl Model for Query {
    ghost use Rattle.ghc_reader.specs.Written.{WrittenQuery, IsWellAsked};
    ghost use Rattle.ghc_reader.specs.inner.WrittenCode.{query_code};

    ghost Value = { WrittenQuery };

    ghost coded = { query_code };

    ghost view = { λ q. record { goals = q.goals.items; variables = q.variables.items } };

    ghost invariant = { λ q. IsWellAsked (record { goals = q.goals.items; variables = q.variables.items }) };
}

impl Query {
    ghost use Rattle.ghc_reader.specs.Written.{IsWellAsked};

    /// Its goals, in order.
    pub fn goals(&self) -> &[Goal]
        ensures same { result.now ≡ self.now.goals }
        ensures well_asked { IsWellAsked self.now }
    {
        &self.goals
    }

    /// The names of its variables, by number.
    pub fn variables(&self) -> &[Name]
        ensures { result.now ≡ self.now.variables }
    {
        &self.variables
    }
}
