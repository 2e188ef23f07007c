// The names of a text, one for each spelling.
ghost use Rattle.std.specs.Prelude.{◌≡◌, List, ℕ, Some, IfOk};
ghost use Rattle.std.specs.BTreeMap.{get_by};
ghost use Rattle.std.specs.Cmp.Lexicographic.{slice_cmp};
ghost use Rattle.std.specs.Ordering.{nat_cmp};

use ghc_term::Name;
use std::alloc::{AllocError, Global};
use std::collections::BTreeMap;

/// The names met so far by their spelling, so that equal names share one text.
pub(crate) struct Names<'a> {
    alloc: Global,
    known: BTreeMap<&'a str, Name>,
    ghost spelled: { (spelling name : List ℕ) → get_by (λ k. slice_cmp nat_cmp spelling k.now) known ≡ Some name → name ≡ spelling },
}

impl Drop for Names<'_> {
    fn drop(self) {
        let Names {
            alloc: _alloc,
            known: _known,
        } = self;
    }
}

impl<'a> Names<'a> {
    /// No names.
    pub(crate) fn new(alloc: Global) -> Names<'a> {
        Names {
            alloc,
            known: BTreeMap::new(alloc),
        }
    }

    /// The name of this spelling. It takes memory for the text only where the spelling is new.
    pub(crate) fn name(&mut self, spelling: &'a str) -> Result<Name, AllocError>
        ensures { IfOk result (λ name. name ≡ spelling.now) }
    {
        if let Some(name) = self.known.get(spelling) {
            return name.share();
        }
        let name = Name::new(self.alloc, spelling)?;
        self.known.insert(spelling, name.share()?)?;
        Ok(name)
    }
}
