// The lines of a program's text at which its clauses begin.
ghost use Rattle.std.specs.Prelude.{◌≡◌, ◌+◌, ◌≤◌, All, IfOk, length};
ghost use Rattle.ghc_reader.specs.ClauseLines.{BeginsAt};
ghost use Rattle.ghc_reader.specs.Lowered.{Each};
ghost use Rattle.ghc_reader.specs.inner.Views.{clause_views};

use crate::lexer::Lexed;
use crate::source::SourceClause;
use std::alloc::{AllocError, Global};
use std::marker::Model;

/// The line at which each clause of a program begins, in order. Lines are counted from 1.
pub struct ClauseLines {
    pub(crate) lines: Vec<u32>,
}

impl Drop for ClauseLines {
    fn drop(self) {
        let ClauseLines { lines: _lines } = self;
    }
}

impl Model for ClauseLines {
    ghost use Rattle.std.specs.Prelude.{List, ℕ};
    ghost use Rattle.std.specs.Coded.{coded_list, coded_ℕ};

    ghost Value = { List ℕ };

    ghost coded = { coded_list coded_ℕ };

    ghost view = { λ l. l.lines.items };
}

impl ClauseLines {
    ghost use Rattle.ghc_reader.specs.ClauseLines.{line_of};

    /// The line of the clause of this number, if it is known. The first is clause 1.
    pub fn line_of(&self, clause: u32) -> Option<u32>
        ensures { result ≡ line_of self.now clause }
    {
        let index = clause.checked_sub(1)?;
        self.lines.get(index as usize).copied()
    }
}

/// The line of each of these clauses, whose heads stand among the tokens. It fails where memory is refused. Time and memory grow with
/// the number of clauses.
pub(crate) fn lines_of(
    alloc: Global,
    clauses: &[SourceClause],
    lexed: &Lexed,
) -> Result<ClauseLines, AllocError>
    requires paired { length lexed.now.places.items ≡ length lexed.now.tokens.items + 1 }
    requires among { All (λ c. c.head.left ≤ length lexed.now.tokens.items) (clause_views clauses.now) }
    ensures { IfOk result (λ lines. Each (BeginsAt lexed.now.tokens.items lexed.now.places.items) (clause_views clauses.now) lines) }
{
    let mut lines = Vec::new(alloc);
    for clause in clauses {
        let front = lexed.tokens.len() - clause.head.left;
        lines.push(lexed.places[front].line)?;
    }
    Ok(ClauseLines { lines })
}
