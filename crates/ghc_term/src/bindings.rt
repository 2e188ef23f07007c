// What a step binds.
ghost use Rattle.std.specs.Prelude.{◌≡◌, ◌≤◌, ◌↔◌, [], ◌∷◌, length, IfOk, IsTrue, OnOk, OnErr, option_copied, Some, None};
ghost use Rattle.std.specs.FinMap as finite;
ghost use Rattle.ghc_term.specs.inner.BindingTable.{AreOnce, map_of};
ghost use Rattle.ghc_term.specs.Store.{value_at, with_binds};

use crate::table::binding_table::{BindingTable, tabled};
use crate::table::entry_list::{place_in, put_each, share_entries, value_in};
use crate::table::variable_map::VariableMap;
use crate::term::Term;
use crate::var_name::VarName;
use std::alloc::{AllocError, Global};
use std::marker::Model;
use std::{mem, slice};

// How many bindings are searched one after another.
const MOST_LISTED: usize = 8;

/// Some variables, each with the term to which it is bound as written. One takes no memory; a few are searched one after
/// another, and more by a look-up.
pub struct Bindings {
    held: Held,
}

// A search from the term of `Near` was seen to be short.
enum Held {
    Nothing(Global),
    Near(Global, (VarName, Term)),
    One(Global, (VarName, Term)),
    Listed(Vec<(VarName, Term)>),
    Tabled(Box<BindingTable>),
}

impl Drop for Held {
    #[inline(always)]
    fn drop(self) {
        match self {
            Held::Nothing(_) => {}
            Held::Near(_, _entry) => {}
            Held::One(_, _entry) => {}
            Held::Listed(_list) => {}
            Held::Tabled(_table) => {}
        }
    }
}

impl Model for Bindings {
    ghost use Rattle.ghc_term.specs.Store.{StoreValue, store_code};
    ghost use Rattle.ghc_term.specs.inner.BindingList.{in_order};
    ghost use Rattle.ghc_term.specs.inner.BindingTable.{AreOnce, map_of};

    ghost Value = { StoreValue };

    ghost coded = { store_code };

    ghost view = { λ b. map_of (in_order b.held) };

    ghost invariant = { λ b. AreOnce (in_order b.held) };
}

// A list of the entry, which is taken, with room for one more.
fn listed(alloc: Global, entry: &mut (VarName, Term)) -> Result<Vec<(VarName, Term)>, AllocError>
    ensures ok { IfOk result (λ list. list.items ≡ entry.old ∷ []) }
    ensures err { OnErr result (entry.new ≡ entry.old) }
{
    let mut list = Vec::with_capacity(alloc, 2)?;
    let none = (entry.0, Term::integer(0));
    list.push_reserved(mem::replace(entry, none));
    Ok(list)
}

// Binds the variable in the list.
fn put(list: &mut Vec<(VarName, Term)>, x: VarName, value: Term) -> Result<(), AllocError>
    requires { AreOnce list.old.items }
    ensures once { AreOnce list.new.items }
    ensures ok { OnOk result (map_of list.new.items ≡ finite.insert (map_of list.old.items) x value) }
    ensures err { OnErr result (list.new.items ≡ list.old.items) }
{
    match place_in(list, x) {
        Some(place) => {
            list[place] = (x, value);
        }
        None => {
            list.push((x, value))?;
        }
    }
    Ok(())
}

// Binds a variable in the list that is not bound there.
fn push_new(list: &mut Vec<(VarName, Term)>, x: VarName, value: Term) -> Result<(), AllocError>
    requires once { AreOnce list.old.items }
    requires new { value_at (map_of list.old.items) x ≡ None }
    ensures once { AreOnce list.new.items }
    ensures ok { OnOk result (map_of list.new.items ≡ finite.insert (map_of list.old.items) x value) }
    ensures err { OnErr result (list.new.items ≡ list.old.items) }
{
    list.push((x, value))?;
    Ok(())
}

impl Held {
    ghost use Rattle.ghc_term.specs.inner.BindingList.{in_order};

    // The bindings.
    fn entries(&self) -> &[(VarName, Term)]
        ensures { result.now ≡ in_order self.now }
    {
        match self {
            Held::Nothing(_) => &[],
            Held::Near(_, entry) => slice::from_ref(entry),
            Held::One(_, entry) => slice::from_ref(entry),
            Held::Listed(list) => list.as_slice(),
            Held::Tabled(table) => table.entries(),
        }
    }

    // The bindings once more, in the same form.
    #[inline(always)]
    fn share(&self) -> Result<Held, AllocError>
        requires { AreOnce (in_order self.now) }
        ensures { IfOk result (λ again. in_order again ≡ in_order self.now) }
    {
        match self {
            Held::Nothing(alloc) => Ok(Held::Nothing(*alloc)),
            Held::Near(alloc, (x, value)) => Ok(Held::Near(*alloc, (*x, value.share()?))),
            Held::One(alloc, (x, value)) => Ok(Held::One(*alloc, (*x, value.share()?))),
            Held::Listed(list) => Ok(Held::Listed(share_entries(*list.allocator(), list)?)),
            Held::Tabled(table) => Ok(Held::Tabled(table.share()?)),
        }
    }

    // Puts each binding into the map, where there is room. It cannot fail, and costs a step or a look-up for each.
    #[inline(always)]
    fn put_into(self, map: &mut VariableMap<Term>)
        requires { length (in_order self) ≤ map.old.room }
        ensures { map.new.held ≡ with_binds (in_order self) map.old.held }
    {
        match self {
            Held::Nothing(_) => {}
            Held::Near(_, (x, value)) => map.put(x, value),
            Held::One(_, (x, value)) => map.put(x, value),
            Held::Listed(list) => put_each(map, list),
            Held::Tabled(table) => put_each(map, Box::into_inner(table).into_entries()),
        }
    }
}

impl Bindings {
    ghost use Rattle.ghc_term.specs.inner.Equality.{IsWithin};

    /// No bindings, which take no memory.
    pub fn new(alloc: Global) -> Bindings
        ensures { result ≡ finite.empty }
    {
        Bindings {
            held: Held::Nothing(alloc),
        }
    }

    /// No bindings, with room for so many.
    pub fn with_capacity(alloc: Global, count: usize) -> Result<Bindings, AllocError>
        ensures { IfOk result (λ b. b ≡ finite.empty) }
    {
        if count < 2 {
            return Ok(Bindings::new(alloc));
        }
        let list = Vec::with_capacity(alloc, count)?;
        Ok(Bindings {
            held: Held::Listed(list),
        })
    }

    /// What the variable is bound to: eight comparisons at most, or one look-up.
    pub fn get(&self, x: VarName) -> Option<&Term>
        ensures { option_copied result ≡ value_at self.now x }
    {
        match &self.held {
            Held::Tabled(table) => table.get(x),
            held => value_in(held.entries(), x),
        }
    }

    /// How many variables are bound.
    pub fn len(&self) -> usize
        ensures { result ≡ finite.len self.now }
    {
        self.entries().len()
    }

    /// Binds a variable that was not bound here.
    #[inline(always)]
    pub fn insert(&mut self, x: VarName, value: Term) -> Result<(), AllocError>
        ensures ok { OnOk result (self.new ≡ finite.insert self.old x value) }
        ensures err { OnErr result (self.new ≡ self.old) }
    {
        match &mut self.held {
            Held::Nothing(alloc) => {
                self.held = Held::One(*alloc, (x, value));
                Ok(())
            }
            Held::Near(alloc, entry) => {
                let mut list = listed(*alloc, entry)?;
                let done = put(&mut list, x, value);
                self.held = Held::Listed(list);
                done
            }
            Held::One(alloc, entry) => {
                let mut list = listed(*alloc, entry)?;
                let done = put(&mut list, x, value);
                self.held = Held::Listed(list);
                done
            }
            Held::Listed(list) => {
                if list.len() < MOST_LISTED {
                    return put(list, x, value);
                }
                let mut table = tabled(list)?;
                let done = table.insert(x, value);
                self.held = Held::Tabled(table);
                done
            }
            Held::Tabled(table) => table.insert(x, value),
        }
    }

    /// Binds a variable as `insert` does, to a term from which a search was seen to be short. Where it is the only one, `Store::put`
    /// does not look at the term again. It shows in what that costs and in what searches cost, and in nothing else.
    #[inline(always)]
    pub fn insert_near(&mut self, x: VarName, value: Term) -> Result<(), AllocError>
        ensures ok { OnOk result (self.new ≡ finite.insert self.old x value) }
        ensures err { OnErr result (self.new ≡ self.old) }
    {
        if let Held::Nothing(alloc) = &self.held {
            self.held = Held::Near(*alloc, (x, value));
            return Ok(());
        }
        self.insert_more(x, value)
    }

    // Binds a variable as `insert` does, beside others.
    #[inline(never)]
    fn insert_more(&mut self, x: VarName, value: Term) -> Result<(), AllocError>
        ensures ok { OnOk result (self.new ≡ finite.insert self.old x value) }
        ensures err { OnErr result (self.new ≡ self.old) }
    {
        self.insert(x, value)
    }

    // Whether there is one binding, and a search from its term was seen to be short.
    #[inline(always)]
    pub(crate) fn is_near(&self) -> bool {
        matches!(&self.held, Held::Near(_, _))
    }

    /// Binds a variable that is not bound here: one step, where a few are bound and there is room.
    pub fn add(&mut self, x: VarName, value: Term) -> Result<(), AllocError>
        requires { value_at self.old x ≡ None }
        ensures ok { OnOk result (self.new ≡ finite.insert self.old x value) }
        ensures err { OnErr result (self.new ≡ self.old) }
    {
        match &mut self.held {
            Held::Listed(list) => {
                if list.len() < MOST_LISTED {
                    return push_new(list, x, value);
                }
            }
            _ => {}
        }
        self.insert(x, value)
    }

    /// The bindings, each once.
    pub fn entries(&self) -> &[(VarName, Term)]
        ensures all { finite.from_entries result.now ≡ self.now }
        ensures once { length result.now ≡ finite.len self.now }
    {
        self.held.entries()
    }

    /// The bindings once more, with handles of their own: one step for each, and a look-up where they are many. One that stands here
    /// without a list takes no memory. It fails where memory is refused, or where a count of handles is full.
    #[inline(always)]
    pub fn share(&self) -> Result<Bindings, AllocError>
        ensures { IfOk result (λ again. again ≡ self.now) }
    {
        Ok(Bindings {
            held: self.held.share()?,
        })
    }

    // Puts each binding into the map, where there is room. It cannot fail, and costs a step or a look-up for each.
    #[inline(always)]
    pub(crate) fn put_into(self, map: &mut VariableMap<Term>)
        requires { finite.len self ≤ map.old.room }
        ensures { map.new.held ≡ with_binds (finite.entries self) map.old.held }
    {
        let Bindings { held } = self;
        held.put_into(map);
    }

    // Whether the variable is bound to the term here.
    fn binds(&self, alloc: Global, x: VarName, value: &Term) -> Result<bool, AllocError>
        ensures { IfOk result (λ yes. IsTrue yes ↔ (value_at self.now x ≡ Some value.now)) }
    {
        match self.get(x) {
            Some(bound) => bound.same(alloc, value),
            None => Ok(false),
        }
    }

    // Whether each binding here is one of the other's.
    fn is_within(&self, alloc: Global, other: &Bindings) -> Result<bool, AllocError>
        ensures { IfOk result (λ yes. IsTrue yes ↔ IsWithin self.now other.now) }
    {
        for (x, value) in self.held.entries() {
            if !other.binds(alloc, *x, value)? {
                return Ok(false);
            }
        }
        Ok(true)
    }

    /// Whether the other has the same variables bound to the same terms: one look-up and a comparison for each.
    pub fn same(&self, alloc: Global, other: &Bindings) -> Result<bool, AllocError>
        ensures { IfOk result (λ same. IsTrue same ↔ (self.now ≡ other.now)) }
    {
        if self.len() != other.len() {
            return Ok(false);
        }
        self.is_within(alloc, other)
    }
}

impl Drop for Bindings {
    #[inline(always)]
    fn drop(self) {
        let Bindings { held: _held } = self;
    }
}
