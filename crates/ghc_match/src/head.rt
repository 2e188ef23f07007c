// The head of a clause meets the arguments of a call.
ghost use Rattle.std.specs.Prelude.{◌≡◌, ◌↔◌, ◌⊎◌, [], Some, None, IfOk, OnOk, IsTrue};
ghost use Rattle.ghc_term.specs.Store.{value_at};
ghost use Rattle.ghc_term.specs.Sets.{IsSetOf};
ghost use Rattle.ghc_flat.specs.Flat.{IsLinear};
ghost use Rattle.ghc_match.specs.Match.{StandsFor, Mismatch, HeadWants};
ghost use Rattle.ghc_match.specs.inner.Meeting.{Gains, Clashes, Asks, Passed, standing, Opens, HeadLooksAt};
ghost use Rattle.ghc_match.specs.inner.Places.{ahead_in};
ghost use Rattle.ghc_match.specs.inner.Told.{HasShownNothing};
ghost use Rattle.ghc_term.specs.declared.var_name.VarName.{VarName};
ghost use Rattle.ghc_term.specs.Tree.{Tree, variable};

use crate::alike::{are_alike, arguments_of};
use crate::passing::follow_noting;
use crate::places::{Places, go_below, next_pair};
use crate::stands::Stands;
use ghc_flat::Clause;
use ghc_term::{Store, Term, TermView, Variables};
use std::alloc::{AllocError, Global};

/// What a head and a call have shown where they meet: whether they clash, what the head's variables stand for, which unbound
/// variables are wanted, and which variables were looked at.
#[derive(Drop)]
pub struct Met<'a> {
    pub(crate) clashes: bool,
    pub stands: Stands<'a>,
    pub wanted: Variables,
    pub looked: Variables,
}

impl<'a> Met<'a> {
    /// Nothing yet.
    #[inline(always)]
    pub fn new(alloc: Global) -> Met<'a>
        ensures { HasShownNothing result }
    {
        Met {
            clashes: false,
            stands: Stands::new(alloc),
            wanted: Variables::new(alloc),
            looked: Variables::new(alloc),
        }
    }
}

// Sees the pair at one position, where a variable of the head does not stand for anything yet, and gives the places just below it.
#[inline(always)]
pub fn visit<'a>(
    store: &'a Store,
    head: &'a Term,
    term: &'a Term,
    met: &mut Met<'a>,
) -> Result<Places<'a>, AllocError>
    requires { (y : VarName) → head.now ≡ variable y → value_at met.old.stands y ≡ None }
    ensures clashes { OnOk result (IsTrue met.new.clashes ↔ (IsTrue met.old.clashes ⊎ Clashes (value_at store.now.held) head.now term.now)) }
    ensures stands { OnOk result (met.new.stands ≡ standing head.now term.now met.old.stands) }
    ensures wanted { OnOk result (Gains met.old.wanted met.new.wanted (Asks (value_at store.now.held) head.now term.now)) }
    ensures looked { OnOk result (Gains met.old.looked met.new.looked (Passed (value_at store.now.held) head.now term.now)) }
    ensures opens { IfOk result (λ below. Opens (value_at store.now.held) head.now term.now [] (ahead_in below)) }
{
    store.acyclic();
    if let TermView::Var(y) = head.view() {
        met.stands.put(y, term)?;
        return Ok(Places::none());
    }
    let end = follow_noting(store, term, &mut met.looked)?;
    if let TermView::Var(x) = end.view() {
        met.wanted.insert(x)?;
        return Ok(Places::none());
    }
    if !are_alike(head, end) {
        met.clashes = true;
    }
    Ok(Places::all(arguments_of(head), arguments_of(end)))
}

// What the positions of the clause's head show. It goes once to each of them, by a loop, also below one that clashes;
// each costs the chain of the goal's term there.
pub fn match_head<'a>(
    alloc: Global,
    clause: &'a Clause,
    arguments: &'a [Term],
    store: &'a Store,
    met: &mut Met<'a>,
) -> Result<(), AllocError>
    requires linear { IsLinear clause.now }
    requires nothing { HasShownNothing met.old }
    ensures clashes { OnOk result (IsTrue met.new.clashes ↔ Mismatch clause.now arguments.now (value_at store.now.held)) }
    ensures stands { OnOk result ((y : VarName) (t : Tree) → (value_at met.new.stands y ≡ Some t) ↔ StandsFor clause.now arguments.now (value_at store.now.held) y t) }
    ensures wanted { OnOk result (IsSetOf met.new.wanted (HeadWants clause.now arguments.now (value_at store.now.held))) }
    ensures looked { OnOk result (IsSetOf met.new.looked (HeadLooksAt clause.now arguments.now (value_at store.now.held))) }
{
    let mut here = Places::all(clause.head(), arguments);
    let mut pending = Vec::new(alloc);
    while let Some((head, term)) = next_pair(&mut here, &mut pending) {
        let below = visit(store, head, term, met)?;
        go_below(below, &mut here, &mut pending)?;
    }
    Ok(())
}
