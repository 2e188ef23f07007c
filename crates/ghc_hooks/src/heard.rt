// What the clauses for a call say to it, gathered.
ghost use Rattle.std.specs.Prelude.{◌≡◌, ◌<◌, ◌↔◌, ◌⊎◌, true, false, IsTrue, OnOk};
ghost use Rattle.std.specs.FinSet as set;
ghost use Rattle.ghc_term.specs.Lists.{In};
ghost use Rattle.ghc_term.specs.Store.{value_at};
ghost use Rattle.ghc_term.specs.declared.var_name.VarName.{VarName};
ghost use Rattle.ghc_flat.specs.Flat.{IsLinear};
ghost use Rattle.ghc_match.specs.Match.{Accepts, WaitsFor, LooksAt};
ghost use Rattle.ghc_match.specs.inner.Meeting.{Gains};
ghost use Rattle.ghc_hooks.specs.Status.{ready, waiting, failed};

use crate::note::Note;
use ghc_flat::Clause;
use ghc_match::{Met, Says, lay_clause};
use ghc_term::{Fault, Store, Term, VarName, Variables};
use std::alloc::{AllocError, Global};

// What some clauses say to a call: whether one accepts it, for which variables they wait, and at which they look.
#[derive(Drop)]
pub struct Heard {
    pub accepts: bool,
    pub awaited: Variables,
    pub looked: Variables,
}

// Adds the variables: one look-up for each.
fn add_all(names: &[VarName], gathered: &mut Variables) -> Result<(), AllocError>
    ensures { OnOk result (Gains gathered.old gathered.new (λ x. In x names.now)) }
{
    for name in names {
        gathered.insert(*name)?;
    }
    Ok(())
}

// Adds the variables of the other set: one look-up for each, or one step where there were none before.
fn join(gathered: &mut Variables, other: Variables) -> Result<(), AllocError>
    ensures { OnOk result (Gains gathered.old gathered.new (λ x. IsTrue (set.contains other x))) }
{
    if gathered.len() == 0 {
        *gathered = other;
        return Ok(());
    }
    add_all(other.members(), gathered)
}

impl Heard {
    // No clause has said anything yet.
    pub fn nothing(alloc: Global) -> Heard
        ensures accepts { result.accepts ≡ false }
        ensures awaited { result.awaited ≡ set.empty }
        ensures looked { result.looked ≡ set.empty }
    {
        Heard {
            accepts: false,
            awaited: Variables::new(alloc),
            looked: Variables::new(alloc),
        }
    }

    // Lays one clause more over the call with these arguments, and adds what it says. It costs what `lay_clause` does, and a look-up for
    // each variable at which the clause looks or for which it waits. No term is copied.
    pub fn hear<'x>(
        &mut self,
        alloc: Global,
        clause: &'x Clause,
        arguments: &'x [Term],
        store: &'x Store,
    ) -> Result<(), AllocError>
        requires { IsLinear clause.now }
        ensures accepts { OnOk result (IsTrue self.new.accepts ↔ (IsTrue self.old.accepts ⊎ Accepts clause.now arguments.now (value_at store.now.held))) }
        ensures awaited { OnOk result (Gains self.old.awaited self.new.awaited (WaitsFor clause.now arguments.now (value_at store.now.held))) }
        ensures looked { OnOk result (Gains self.old.looked self.new.looked (LooksAt clause.now arguments.now (value_at store.now.held))) }
    {
        let mut met = Met::new(alloc);
        let says = lay_clause(alloc, clause, arguments, store, &mut met)?;
        let awaited = met.wanted;
        let looked = met.looked;
        match says {
            Says::No => {}
            Says::Waits => join(&mut self.awaited, awaited)?,
            Says::Yes => self.accepts = true,
        }
        join(&mut self.looked, looked)
    }

    // The note of a call to which all of its clauses said this: an acceptance decides before a wait, and that before a refusal.
    pub fn into_note(self) -> Note
        requires { (x : VarName) → IsTrue (set.contains self.awaited x) → IsTrue (set.contains self.looked x) }
        ensures accepted { self.accepts ≡ true → result.status ≡ ready }
        ensures waits { self.accepts ≡ false → 0 < set.len self.awaited → result.status ≡ waiting self.awaited }
        ensures refused { self.accepts ≡ false → set.len self.awaited ≡ 0 → result.status ≡ failed Fault.NoMatch }
        ensures looked { result.looked ≡ self.looked }
    {
        let Heard {
            accepts,
            awaited,
            looked,
        } = self;
        if accepts {
            return Note::ready(looked);
        }
        if awaited.len() > 0 {
            return Note::waiting(awaited, looked);
        }
        Note::failed(Fault::NoMatch, looked)
    }
}
