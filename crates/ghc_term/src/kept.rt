// The variables of a structure, kept behind a shared reference once they were asked for.
ghost use Rattle.std.specs.Prelude.{◌≡◌, false, true, IfOk, OnOk, IsTrue};
ghost use Rattle.ghc_term.specs.Lists.{In};
ghost use Rattle.ghc_term.specs.inner.Kept.{numbers_in};
ghost use Rattle.ghc_term.specs.inner.KeptList.{IsListOf, IsTold, Gathers};

use crate::arguments::Arguments;
use crate::table::variable_list::VariableList;
use crate::var_name::VarName;
use boxcar::tag::{Names, Tag};
use counted_slot::{Counted, Fits};
use std::alloc::AllocError;

// The variables that stand in a structure.
#[derive(Drop)]
pub(crate) struct Listed {
    variables: Box<Vec<VarName>>,
}

impl Fits for Listed {
    ghost use Rattle.ghc_term.specs.inner.KeptList.{IsListOf};

    type Tag = Tag;

    ghost fits = { λ tag l. IsListOf tag.numbers l.variables.value.items };
}

// How the variables of arguments are told.
pub(crate) struct OfArguments;

impl Names<Arguments> for OfArguments {
    ghost use Rattle.ghc_term.specs.inner.Kept.{numbers_in};

    ghost numbers = { λ a. numbers_in a };
}

// Nothing is kept yet.
pub(crate) fn nothing_kept(arguments: &Arguments) -> Counted<Option<Listed>>
    ensures { result.numbers ≡ numbers_in arguments.now }
{
    let tag = Tag::of::<Arguments, OfArguments>(arguments);
    Counted::new(None, &tag)
}

// Adds a variable, if it is not there.
pub(crate) fn add_one(x: VarName, into: &mut VariableList) -> Result<(), AllocError>
    ensures { OnOk result (Gathers (λ y. y ≡ x) into.old into.new) }
{
    if into.place_of(x).is_some() {
        return Ok(());
    }
    into.push(x)
}

// Adds the variables that are not there: one look-up for each.
pub(crate) fn add_each(list: &[VarName], into: &mut VariableList) -> Result<(), AllocError>
    ensures { OnOk result (Gathers (λ y. In y list.now) into.old into.new) }
{
    for x in list {
        add_one(*x, into)?;
    }
    Ok(())
}

// Whether something is kept.
pub(crate) fn is_kept(kept: &Counted<Option<Listed>>) -> bool {
    kept.load() % 4 == 1
}

// Adds the variables that are kept, and says whether there are some. Where another thread reads them, it may say that there are none.
pub(crate) fn add_kept(
    kept: &Counted<Option<Listed>>,
    into: &mut VariableList,
) -> Result<bool, AllocError>
    ensures found { IfOk result (λ found. IsTrue found → Gathers (λ y. IsTold y kept.now.numbers) into.old into.new) }
    ensures none { IfOk result (λ found. (found ≡ false) → (into.new ≡ into.old)) }
{
    let (found, claim) = kept.turn(1, 5);
    if found != 1 {
        claim.done();
        return Ok(false);
    }
    let outcome = match claim.get() {
        Some(listed) => add_listed(listed, into),
        None => Ok(false),
    };
    claim.leave();
    outcome
}

// Adds the variables of the list.
fn add_listed(listed: &Listed, into: &mut VariableList) -> Result<bool, AllocError>
    ensures { IfOk result (λ found. (found ≡ true) × Gathers (λ y. In y listed.now.variables.value.items) into.old into.new) }
{
    add_each(listed.variables.as_slice(), into)?;
    Ok(true)
}

// Keeps the variables, if nothing is kept yet.
pub(crate) fn keep(kept: &Counted<Option<Listed>>, variables: Vec<VarName>)
    requires { IsListOf kept.now.numbers variables.items }
{
    let Ok(variables) = Box::new(*variables.allocator(), variables) else {
        return;
    };
    let (found, claim) = kept.turn(0, 3);
    if found != 0 {
        claim.done();
        return;
    }
    let _ = claim.put(Some(Listed { variables }), 1);
}
