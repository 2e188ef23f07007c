// Lists of variables, each with the term to which it is bound.
ghost use Rattle.std.specs.Prelude.{◌≡◌, ◌≢◌, ◌≤◌, length, IfOk, IfSome, IfNone, Some, All, option_copied, slice_get};
ghost use Rattle.std.specs.Map.{keys_of};
ghost use Rattle.ghc_term.specs.inner.BindingTable.{map_of};
ghost use Rattle.ghc_term.specs.Store.{value_at, with_binds};

use crate::table::variable_map::VariableMap;
use crate::term::Term;
use crate::var_name::VarName;
use std::alloc::{AllocError, Global};

// What the list binds the variable to: one comparison for each that stands before it.
pub fn value_in(list: &[(VarName, Term)], x: VarName) -> Option<&Term>
    ensures { option_copied result ≡ value_at (map_of list.now) x }
{
    for (y, value) in list {
        if x == *y {
            return Some(value);
        }
    }
    None
}

// Where the variable stands in the list: one comparison for each that stands before it.
pub fn place_in(list: &[(VarName, Term)], x: VarName) -> Option<usize>
    ensures found { IfSome result (λ place. slice_get (keys_of list.now) place ≡ Some x) }
    ensures none { IfNone result (All (λ e. e.0 ≢ x) list.now) }
{
    list.iter().position(|(y, _)| *y == x)
}

// The entries once more, with handles of their own, in a list that is just as long: one step for each.
pub fn share_entries(
    alloc: Global,
    entries: &[(VarName, Term)],
) -> Result<Vec<(VarName, Term)>, AllocError>
    ensures { IfOk result (λ shared. shared.items ≡ entries.now) }
{
    let mut shared = Vec::with_capacity(alloc, entries.len())?;
    for (x, value) in entries {
        shared.push((*x, value.share()?))?;
    }
    Ok(shared)
}

// Puts each entry of the list into the map, where there is room, the last first.
pub fn put_each(map: &mut VariableMap<Term>, mut entries: Vec<(VarName, Term)>)
    requires { length entries.items ≤ map.old.room }
    ensures { map.new.held ≡ with_binds entries.items map.old.held }
{
    while let Some((x, value)) = entries.pop() {
        map.put(x, value);
    }
}
