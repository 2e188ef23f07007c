// Laws about the tokens of a text, each as the contract of a function.
ghost use Rattle.ghc_reader.specs.Lexed.{EveryTextIsRead, NoTextIsReadTwice};

/// Every text has tokens or a first bad byte.
pub(crate) fn every_text_is_read()
    ensures { EveryTextIsRead }
{}

/// No text has two lists of tokens, or both tokens and a first bad byte, or two first bad bytes.
pub(crate) fn no_text_is_read_twice()
    ensures { NoTextIsReadTwice }
{}
