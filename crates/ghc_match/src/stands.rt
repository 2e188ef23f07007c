// What the variables of a head stand for, as the call lends it.
ghost use Rattle.std.specs.Prelude.{◌≡◌, ◌≤◌, length, IfOk, OnOk, option_copied};
ghost use Rattle.std.specs.FinMap as finite;
ghost use Rattle.ghc_term.specs.Store.{value_at};
ghost use Rattle.ghc_match.specs.inner.Stands.{laid_over};

use ghc_term::{Bindings, Term, VarName};
use std::alloc::{AllocError, Global};
use std::marker::Model;

// How many variables of a clause, by their places, have what they stand for in the frame.
const FEW: usize = 8;

/// Some variables, each with the term for which it stands as written. Those of a clause at its first places are lent, and take no
/// memory. Contracts see a map, as of `Bindings`.
#[derive(Drop)]
pub struct Stands<'a> {
    few: [Option<&'a Term>; 8],
    many: Bindings,
}

// The terms of the variables of a clause at its first places, shared, beside what others stand for.
fn share_few(few: &[Option<&Term>], others: Bindings) -> Result<Bindings, AllocError>
    requires { length few.now ≤ 8 }
    ensures { IfOk result (λ b. b ≡ laid_over 0 few.now others) }
{
    let mut shared = others;
    let mut place = few.len();
    while place > 0 {
        place -= 1;
        if let Some(term) = few[place] {
            let x = VarName {
                step: 0,
                place: place as u32,
            };
            shared.insert(x, term.share()?)?;
        }
    }
    Ok(shared)
}

impl<'a> Model for Stands<'a> {
    ghost use Rattle.ghc_term.specs.Store.{StoreValue, store_code};
    ghost use Rattle.ghc_match.specs.inner.Stands.{laid_over, HasNoneBefore};

    ghost Value = { StoreValue };

    ghost coded = { store_code };

    ghost use Rattle.std.specs.Prelude.{◌≡◌, length};

    ghost view = { λ s. laid_over 0 s.few s.many };

    ghost invariant = { λ s. (length s.few ≡ 8) × HasNoneBefore 8 s.many };
}

impl<'a> Stands<'a> {
    /// No variables.
    #[inline(always)]
    pub fn new(alloc: Global) -> Stands<'a>
        ensures { result ≡ finite.empty }
    {
        Stands {
            few: [None, None, None, None, None, None, None, None],
            many: Bindings::new(alloc),
        }
    }

    /// The variable stands for the term from now on: one step, where it is at one of the first places of a clause.
    #[inline(always)]
    pub fn put(&mut self, x: VarName, term: &'a Term) -> Result<(), AllocError>
        ensures { OnOk result (self.new ≡ finite.insert self.old x term.now) }
    {
        let place = x.place as usize;
        if x.step == 0 && place < FEW {
            let few = &mut self.few[..];
            few[place] = Some(term);
            return Ok(());
        }
        self.many.insert(x, term.share()?)?;
        Ok(())
    }

    /// The term for which the variable stands, if it stands for one: one step, where it is at one of the first places of a clause.
    #[inline(always)]
    pub fn get(&self, x: VarName) -> Option<&Term>
        ensures { option_copied result ≡ value_at self.now x }
    {
        let place = x.place as usize;
        if x.step == 0 && place < FEW {
            let few = &self.few[..];
            return few[place];
        }
        self.many.get(x)
    }

    /// The same map with handles of its own for the terms: one step for each. It fails where memory is refused, or where a
    /// count of handles is full.
    pub fn share(&self) -> Result<Bindings, AllocError>
        ensures { IfOk result (λ b. b ≡ self.now) }
    {
        share_few(&self.few[..], self.many.share()?)
    }
}
