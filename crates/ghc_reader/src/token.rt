// The tokens of a text.

use ghc_term::{Comparison, Name};

/// A mark that brackets, separates or ends.
#[derive(Clone, Copy, PartialEq, Eq)]
pub enum Mark {
    /// `(`
    Open,
    /// `)`
    Close,
    /// `[`
    OpenList,
    /// `]`
    CloseList,
    /// `,`
    Comma,
    /// `|`
    Bar,
    /// `=`
    Equals,
    /// `:=`
    Assign,
    /// `:-`
    Define,
    /// `.`
    Stop,
}

/// A mark that adds or subtracts.
#[derive(Clone, Copy)]
pub enum Sum {
    /// `+`
    Plus,
    /// `-` where it is no sign of an integer
    Minus,
}

/// A mark that multiplies or divides, or the word `mod`.
#[derive(Clone, Copy)]
pub enum Product {
    /// `*`
    Times,
    /// `/`
    Divide,
    /// `mod`
    Modulo,
}

/// One token. A clause sees a name or a variable as its bytes.
#[derive(Drop)]
pub enum Token {
    /// The name of an atom, a functor or a predicate; `mod` is none.
    Name(Name),
    /// A variable, `_` among them.
    Variable(Name),
    /// An integer with its sign.
    Integer(i64),
    /// A bracket, a separator, an equals sign or an end.
    Mark(Mark),
    /// A comparison of two integers.
    Comparison(Comparison),
    /// An addition or a subtraction.
    Sum(Sum),
    /// A multiplication or a division.
    Product(Product),
}
