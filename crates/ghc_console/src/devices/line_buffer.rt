// Gathering the bytes of a line.
ghost use Rattle.std.specs.Prelude.{◌≡◌, ℕ, List, [], ◌++◌, IfOk};
ghost use Rattle.ghc_console.specs.Reading.{HasGathered};

/// The most bytes of a line, its line feed and a carriage return before it left out.
pub const LINE_LIMIT: usize = 1_048_576;

/// What becomes of a line.
#[derive(Clone, Copy)]
pub enum State {
    /// All its bytes so far are held.
    Whole,
    /// There are too many.
    TooLong,
    /// Memory was refused.
    NoMemory,
}

/// The bytes of a line so far. None are held where there are too many, or where memory was refused.
#[derive(Drop)]
pub struct Gathered {
    pub bytes: Vec<u8>,
    pub state: State,
}

impl Gathered {
    /// No bytes yet. Those that come take the place of what stood in `spare`, and its memory.
    pub fn new(spare: Vec<u8>) -> Gathered
        ensures { HasGathered result [] }
    {
        let mut bytes = spare;
        bytes.clear();
        Gathered {
            bytes,
            state: State::Whole,
        }
    }

    /// Adds bytes, which are copied.
    pub fn add(&mut self, piece: &[u8])
        ensures { (bytes : List ℕ) → HasGathered self.old bytes → HasGathered self.new (bytes ++ piece.now) }
    {
        match self.state {
            State::Whole => {
                if piece.len() > LINE_LIMIT + 1 || self.bytes.len() > LINE_LIMIT + 1 - piece.len() {
                    self.state = State::TooLong;
                    self.bytes.clear();
                } else if self.bytes.extend_from_slice(piece).is_err() {
                    self.state = State::NoMemory;
                    self.bytes.clear();
                }
            }
            State::TooLong | State::NoMemory => {}
        }
    }
}
