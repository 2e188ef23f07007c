// Which of the two texts a refusal of the checker is of.
ghost use Rattle.std.specs.Prelude.{◌≡◌};
ghost use Rattle.ghc_flat.specs.inner.Refused.{fault_of, refused_of_query};

use ghc_term::Fault;

/// The text at fault, with its fault.
#[derive(Debug, Drop)]
pub enum Refused {
    /// The program, also where memory is refused.
    Program(Fault),
    /// The query.
    Query(Fault),
}

impl Refused {
    // The refusal for what the query came to; refused memory counts as the program's.
    pub(crate) fn of_query(fault: Fault) -> Refused
        ensures { result ≡ refused_of_query fault }
    {
        match fault {
            Fault::Memory => Refused::Program(Fault::Memory),
            fault => Refused::Query(fault),
        }
    }

    /// The fault, of either text.
    pub fn fault(self) -> Fault
        ensures { result ≡ fault_of self }
    {
        match self {
            Refused::Program(fault) => fault,
            Refused::Query(fault) => fault,
        }
    }
}
