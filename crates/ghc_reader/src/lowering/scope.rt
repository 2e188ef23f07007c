// The variables of a clause or a query that are known so far, and their names.
ghost use Rattle.std.specs.Prelude.{◌≡◌, ◌≢◌, ℕ, ◌+◌, List, [], bytes_eq, Some, IfOk, IfSome, OnOk, OnErr};
ghost use Rattle.indexmap.specs.IndexMap.{get, Updates};
ghost use Rattle.ghc_reader.specs.Lowered.{blank, IsCalled};
ghost use Rattle.ghc_reader.specs.inner.Scope.{IsFresh, Meets};

use ghc_term::{Name, VarName};
use indexmap::IndexMap;
use std::alloc::{AllocError, Global};
use std::marker::Model;

/// The variables known so far, by number. Contracts see their names.
pub(crate) struct Scope {
    places: IndexMap<Name, u32>,
    names: Vec<Name>,
}

impl Model for Scope {
    ghost use Rattle.std.specs.Prelude.{bytes_eq};
    ghost use Rattle.indexmap.specs.IndexMap.{get};
    ghost use Rattle.ghc_reader.specs.Lowered.{Names};
    ghost use Rattle.ghc_reader.specs.inner.Scope.{IsTable};
    ghost use Rattle.ghc_reader.specs.inner.WrittenCode.{name_list_code};

    ghost Value = { Names };

    ghost coded = { name_list_code };

    ghost view = { λ s. s.names.items };

    ghost invariant = { λ s. IsTable (get bytes_eq s.places) s.names.items };
}

impl Drop for Scope {
    fn drop(self) {
        let Scope {
            places: _places,
            names: _names,
        } = self;
    }
}

impl Scope {
    /// No variables, which take no memory.
    pub(crate) fn new(alloc: Global) -> Scope
        ensures { result ≡ [] }
    {
        Scope {
            places: IndexMap::new(alloc),
            names: Vec::new(alloc),
        }
    }

    /// The variable of that name: the one that is known, or the next, which is known from then on. `_` is always the
    /// next. It fails where memory is refused, or where the variables are more than a number of 32 bits counts. One
    /// look-up.
    pub(crate) fn variable(&mut self, name: &Name) -> Result<VarName, AllocError>
        ensures called { IfOk result (λ x. IsCalled self.new name.now x) }
        ensures met { IfOk result (λ x. Meets self.old x self.new) }
    {
        if name.as_str() == "_" {
            return self.add_blank(name);
        }
        if let Some(place) = self.places.get(name) {
            return Ok(VarName {
                step: 0,
                place: *place,
            });
        }
        self.add(name)
    }

    /// The names, given up.
    pub(crate) fn into_names(self) -> Vec<Name>
        ensures { result.items ≡ self }
    {
        let Scope {
            places: _places,
            names,
        } = self;
        names
    }

    // The next variable, called `_`.
    fn add_blank(&mut self, name: &Name) -> Result<VarName, AllocError>
        requires { name.now ≡ blank }
        ensures called { IfOk result (λ x. IsCalled self.new name.now x) }
        ensures met { IfOk result (λ x. Meets self.old x self.new) }
    {
        let Some(place) = number_behind(self.names.len()) else {
            return Err(AllocError);
        };
        self.names.push(name.share()?)?;
        Ok(VarName { step: 0, place })
    }

    // The next variable, of a name that no variable has yet.
    fn add(&mut self, name: &Name) -> Result<VarName, AllocError>
        requires named { name.now ≢ blank }
        requires fresh { IsFresh self.old name.now }
        ensures called { IfOk result (λ x. IsCalled self.new name.now x) }
        ensures met { IfOk result (λ x. Meets self.old x self.new) }
    {
        let Some(place) = number_behind(self.names.len()) else {
            return Err(AllocError);
        };
        self.names.push(name.share()?)?;
        if put(&mut self.places, name, place).is_err() {
            self.names.pop();
            return Err(AllocError);
        }
        Ok(VarName { step: 0, place })
    }
}

/// Puts the name into the table, with its place. Where memory is refused the table stays as it was.
#[inline(always)]
pub(crate) fn put(
    places: &mut IndexMap<Name, u32>,
    name: &Name,
    place: u32,
) -> Result<(), AllocError>
    ensures put { OnOk result (Updates bytes_eq places.old places.new name.now (Some place)) }
    ensures kept { OnErr result ((v : List ℕ) → get bytes_eq places.new v ≡ get bytes_eq places.old v) }
{
    places.insert(name.share()?, place)?;
    Ok(())
}

// The number after this count, if it has 32 bits.
fn number_behind(count: usize) -> Option<u32>
    ensures { IfSome result (λ n. n ≡ count + 1) }
{
    u32::try_from(count).ok()?.checked_add(1)
}
