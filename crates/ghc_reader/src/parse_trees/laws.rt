// Laws about what texts are read as, each as the contract of a function.
ghost use Rattle.ghc_reader.specs.Read.{EachTextIsReadInOneWay};
ghost use Rattle.ghc_reader.specs.Tests.{NoTextIsAnsweredTwice};

/// No text of a program, a query or an input term has two trees, or both a tree and a refusal, or two refusals.
pub(crate) fn no_text_is_answered_twice()
    ensures { NoTextIsAnsweredTwice }
{}

/// No text is read as two programs, as two queries or as two input terms.
pub(crate) fn a_text_is_read_in_one_way()
    ensures { EachTextIsReadInOneWay }
{}
