// How the program ends.
ghost use Rattle.std.specs.Prelude.{◌≡◌};
ghost use Rattle.ghcdb.specs.inner.Status.{status_code, status_of};

use ghc_term::Fault;

/// How the program ends.
#[derive(Clone, Copy)]
pub enum Status {
    /// What was asked for is done.
    Done,
    /// A text is refused, or no memory is left.
    Refused,
    /// The command line is refused.
    Misused,
    /// A file or a stream failed.
    Broken,
}

impl Status {
    /// The status for a refusal.
    pub fn of(fault: &Fault) -> Status
        ensures { result ≡ status_of fault.now }
    {
        match fault {
            Fault::Device => Status::Broken,
            _ => Status::Refused,
        }
    }

    /// The number that the process ends with.
    pub fn code(self) -> u8
        ensures { result ≡ status_code self }
    {
        match self {
            Status::Done => 0,
            Status::Refused => 1,
            Status::Misused => 2,
            Status::Broken => 3,
        }
    }
}
