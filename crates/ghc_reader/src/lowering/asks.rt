// From the parse trees of what is asked for in mid-run to what is asked for as it is written.
ghost use Rattle.std.specs.Prelude.{◌≡◌, IfOk, None};
ghost use Rattle.ghc_reader.specs.Limits.{first_exceeded, of_query};
ghost use Rattle.ghc_reader.specs.inner.Views.{goal_views};
ghost use Rattle.ghc_reader.specs.Lowered.{Each};
ghost use Rattle.ghc_reader.specs.WrittenAsk.{IsNaming, SaysAsk};

use crate::ask::WrittenAsk;
use crate::lexer::value::numbers;
use crate::lowering::goals::lower_body;
use crate::lowering::lists::Lists;
use crate::lowering::scope::{Scope, put};
use crate::source::SourceGoal;
use ghc_term::{NO_STEP, Name, VarName};
use indexmap::IndexMap;
use std::alloc::{AllocError, Global};
use std::marker::Model;

/// The names of a query's variables, with the places of those that are not `_`. Contracts see the names.
struct Known<'a> {
    names: &'a [Name],
    places: IndexMap<Name, u32>,
}

impl<'a> Model for Known<'a> {
    ghost use Rattle.std.specs.Prelude.{bytes_eq};
    ghost use Rattle.indexmap.specs.IndexMap.{get};
    ghost use Rattle.ghc_reader.specs.Lowered.{Names};
    ghost use Rattle.ghc_reader.specs.inner.Scope.{IsTable};
    ghost use Rattle.ghc_reader.specs.inner.WrittenCode.{name_list_code};

    ghost Value = { Names };

    ghost coded = { name_list_code };

    ghost view = { λ k. k.names.now };

    ghost invariant = { λ k. IsTable (get bytes_eq k.places) k.names.now };
}

impl Drop for Known<'_> {
    fn drop(self) {
        let Known {
            names: _names,
            places: _places,
        } = self;
    }
}

impl<'a> Known<'a> {
    /// The names, each put into the table once. It fails where memory is refused, or where the names are more than a number of 32
    /// bits counts.
    fn new(alloc: Global, names: &'a [Name]) -> Result<Known<'a>, AllocError>
        ensures { IfOk result (λ known. known ≡ names.now) }
    {
        let mut places = IndexMap::new(alloc);
        let mut place = 0u32;
        for name in names {
            let Some(next) = place.checked_add(1) else {
                return Err(AllocError);
            };
            place = next;
            if name.as_str() != "_" {
                put(&mut places, name, place)?;
            }
        }
        Ok(Known { names, places })
    }

    /// The variable of the state that the name names, if it is not that of a new one. One look-up.
    fn naming(&self, name: &Name) -> Option<VarName>
        ensures { IsNaming self.now name.now result }
    {
        if let Some((step, place)) = numbers(name.as_str().as_bytes()) {
            if step == NO_STEP {
                return Some(VarName { step: 0, place: 0 });
            }
            return Some(VarName { step, place });
        }
        match self.places.get(name) {
            Some(place) => Some(VarName {
                step: 0,
                place: *place,
            }),
            None => None,
        }
    }

    /// For each of the names the variable of the state that it names.
    fn namings(&self, alloc: Global, names: &[Name]) -> Result<Vec<Option<VarName>>, AllocError>
        ensures { IfOk result (λ named. Each (IsNaming self.now) names.now named.items) }
    {
        let mut named = Vec::new(alloc);
        for name in names {
            named.push(self.naming(name))?;
        }
        Ok(named)
    }
}

/// What parse trees within the limits ask for, where the variables of the query have these names. It fails where memory is
/// refused, or where the names are more than a number of 32 bits counts. Time grows with the size of the trees and the number of
/// the names.
pub(crate) fn lower_ask(
    alloc: Global,
    goals: &[SourceGoal],
    query: &[Name],
) -> Result<WrittenAsk, AllocError>
    requires { first_exceeded (of_query (goal_views goals.now)) ≡ None }
    ensures { IfOk result (λ a. SaysAsk query.now (goal_views goals.now) a) }
{
    let known = Known::new(alloc, query)?;
    let lists = Lists::new(alloc)?;
    let mut scope = Scope::new(alloc);
    let lowered = lower_body(&lists, goals, &mut scope)?;
    let named = known.namings(alloc, &scope.into_names())?;
    Ok(WrittenAsk {
        goals: lowered,
        named,
    })
}
