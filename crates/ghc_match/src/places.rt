// Places of a head beside the goal's, gone through from the last one to the first.
ghost use Rattle.std.specs.Prelude.{◌≡◌, ◌<◌, ◌++◌, [], ◌∷◌, OnOk};
ghost use Rattle.std.specs.Vec.{vec_capacity, vec_len};
ghost use Rattle.std.specs.List.{zip};
ghost use Rattle.ghc_match.specs.inner.Places.{ahead_in, all_ahead, TakesLast};

use ghc_term::Term;
use std::alloc::AllocError;

/// Terms of a head beside the goal's, of which those at the first so many places are still ahead.
#[derive(Clone, Copy)]
pub struct Places<'a> {
    heads: &'a [Term],
    terms: &'a [Term],
    left: usize,
}

impl<'a> Places<'a> {
    // All places that both lists have.
    pub fn all(heads: &'a [Term], terms: &'a [Term]) -> Places<'a>
        ensures { ahead_in result ≡ zip heads.now terms.now }
    {
        Places {
            heads,
            terms,
            left: heads.len(),
        }
    }

    // No places.
    pub fn none() -> Places<'a>
        ensures { ahead_in result ≡ [] }
    {
        Places {
            heads: &[],
            terms: &[],
            left: 0,
        }
    }

    // Takes the last pair ahead, if there is one.
    fn take_last(&mut self) -> Option<(&'a Term, &'a Term)>
        ensures { TakesLast result (ahead_in self.old) (ahead_in self.new) }
    {
        while self.left > 0 {
            self.left -= 1;
            if self.left < self.heads.len() && self.left < self.terms.len() {
                return Some((&self.heads[self.left], &self.terms[self.left]));
            }
        }
        None
    }
}

// Takes the last pair ahead, if there is one: of the places here, or else of the last ones that wait.
pub fn next_pair<'a>(
    here: &mut Places<'a>,
    pending: &mut Vec<Places<'a>>,
) -> Option<(&'a Term, &'a Term)>
    ensures { TakesLast result (all_ahead here.old pending.old.items) (all_ahead here.new pending.new.items) }
{
    loop {
        if let Some((head, term)) = here.take_last() {
            return Some((head, term));
        }
        match pending.pop() {
            Some(last) => *here = last,
            None => return None,
        }
    }
}

// For how many places room is made at first: 960 bytes. A list of that many elements takes memory once, and in a piece that allocators give
// and take back without a lock.
const FIRST: usize = 24;

// Makes room for places that wait.
#[inline(never)]
fn make_room(pending: &mut Vec<Places<'_>>) -> Result<(), AllocError>
    ensures items { OnOk result (pending.new.items ≡ pending.old.items) }
    ensures room { OnOk result (vec_len pending.new < vec_capacity pending.new) }
{
    pending.reserve(FIRST)
}

// Lets the places wait.
#[inline(always)]
fn let_wait<'a>(here: Places<'a>, pending: &mut Vec<Places<'a>>) -> Result<(), AllocError>
    ensures { OnOk result (pending.new.items ≡ pending.old.items ++ here.entry ∷ []) }
{
    if pending.len() == pending.capacity() {
        make_room(pending)?;
    }
    pending.push_reserved(here);
    Ok(())
}

// Goes to the places below; those here wait, if there are any. Nothing is kept of places that are all done.
pub fn go_below<'a>(
    below: Places<'a>,
    here: &mut Places<'a>,
    pending: &mut Vec<Places<'a>>,
) -> Result<(), AllocError>
    ensures { OnOk result (all_ahead here.new pending.new.items ≡ all_ahead here.old pending.old.items ++ ahead_in below.entry) }
{
    if below.left == 0 {
        return Ok(());
    }
    if here.left > 0 {
        let_wait(*here, pending)?;
    }
    *here = below;
    Ok(())
}
