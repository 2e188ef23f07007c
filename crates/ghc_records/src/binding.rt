// Bindings that a step makes are put, or taken away.
ghost use Rattle.std.specs.Prelude.{◌≡◌, ◌≤◌, if◌then◌else◌, is_some, None, IfOk};
ghost use Rattle.std.specs.FinMap as finite;
ghost use Rattle.ghc_term.specs.Bindings.{IsAcyclic};
ghost use Rattle.ghc_term.specs.declared.var_name.VarName.{VarName};
ghost use Rattle.ghc_term.specs.Store.{value_at, with_binds};

use ghc_term::{Bindings, Store};
use std::alloc::{AllocError, Global};

/// The bindings once more, as `Bindings::share` gives them: most steps bind none, which costs a test.
#[inline(always)]
pub(crate) fn share_all(alloc: Global, binds: &Bindings) -> Result<Bindings, AllocError>
    ensures { IfOk result (λ again. again ≡ binds.now) }
{
    if binds.len() == 0 {
        return Ok(Bindings::new(alloc));
    }
    binds.share()
}

/// Binds each variable to its value, as `Store::put` does: most steps bind none, which costs a test.
#[inline(always)]
pub(crate) fn bind_all(store: &mut Store, binds: Bindings)
    requires room { finite.len binds ≤ store.old.room }
    requires acyclic { IsAcyclic (value_at (with_binds (finite.entries binds) store.old.held)) }
    ensures { store.new.held ≡ with_binds (finite.entries binds) store.old.held }
{
    if binds.len() > 0 {
        store.put(binds);
    }
}

/// Unbinds each variable that the bindings bind: one look-up for each.
pub(crate) fn unbind_all(store: &mut Store, binds: &Bindings)
    ensures { (y : VarName) → value_at store.new.held y ≡ if is_some (value_at binds.now y) then None else value_at store.old.held y }
{
    for (x, _) in binds.entries() {
        store.unbind(*x);
    }
}
