// Ground terms: the terms that may be an input.
ghost use Rattle.std.specs.Prelude.{◌≡◌, ◌≤◌, IfOk, IfSome, IfNone};

use crate::measure::is_input_term;
use crate::term::Term;
use std::alloc::{AllocError, Global};
use std::marker::Model;
use std::sync::Arc;

/// A closed term that is the tree of an input term, within the limits: at most 10,000 nodes, 255 arguments, 64 brackets
/// open at one place and `TEXT_LIMIT` bytes of text. A variable, an integer, an atom, a structure and a list cell is a node each.
#[derive(Drop)]
pub struct Ground {
    // held by one word, as the acts of steps have it
    term: Arc<Term>,
}

impl Model for Ground {
    ghost use Rattle.ghc_term.specs.Tree.{Tree};
    ghost use Rattle.ghc_term.specs.inner.Code.{tree_code};
    ghost use Rattle.ghc_term.specs.InputTerm.{IsInputTerm};

    ghost Value = { Tree };

    ghost coded = { tree_code };

    ghost view = { λ g. g.term.value };

    ghost invariant = { λ g. IsInputTerm g.term.value };
}

impl Ground {
    ghost use Rattle.ghc_term.specs.InputTerm.{IsInputTerm, most_open};
    ghost use Rattle.ghc_term.specs.Text.{term_text};
    ghost use Rattle.ghc_term.specs.Tree.{Occurs};
    ghost use Rattle.ghc_term.specs.declared.var_name.VarName.{VarName};

    /// The term as an input term, if it is one. It looks at 10,000 nodes and `TEXT_LIMIT` bytes at most, and fails only where memory is
    /// refused.
    pub fn of(alloc: Global, term: Term) -> Result<Option<Ground>, AllocError>
        ensures some { IfOk result (λ found. IfSome found (λ g. (g ≡ term) × IsInputTerm term)) }
        ensures none { IfOk result (λ found. IfNone found (¬ IsInputTerm term)) }
    {
        if !is_input_term(&term) {
            return Ok(None);
        }
        match Arc::new(alloc, term) {
            Ok(term) => Ok(Some(Ground { term })),
            Err(_) => Err(AllocError),
        }
    }

    /// The term.
    pub fn as_term(&self) -> &Term
        ensures same { result.now ≡ self.now }
        ensures input { IsInputTerm self.now }
        ensures closed { (x : VarName) → ¬ Occurs x self.now }
        ensures brackets { most_open 0 (term_text self.now) ≤ 64 }
    {
        &*self.term
    }

    /// The same term once more, with its parts shared: one step. Fails where a count of handles is full.
    pub fn share(&self) -> Result<Ground, AllocError>
        ensures { IfOk result (λ g. g ≡ self.now) }
    {
        let term = Arc::try_clone(&self.term)?;
        Ok(Ground { term })
    }
}
