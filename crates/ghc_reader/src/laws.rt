// Laws of reading and printing, each as the contract of a function.
ghost use Rattle.ghc_reader.specs.Laws.{ReadProgramIsExact, ReadQueryIsExact, ReadTermIsExact, ReadAskIsExact, ReadBodyIsExact, PrintedTermsAreReadAgain};
ghost use Rattle.ghc_reader.specs.PrintedGoals.{PrintedGoalsAreReadAgain};

/// What is answered for the text of a program is exact, unless memory was refused.
pub fn read_program_is_exact()
    ensures { ReadProgramIsExact }
{}

/// What is answered for the text of a query is exact, unless memory was refused.
pub fn read_query_is_exact()
    ensures { ReadQueryIsExact }
{}

/// What is answered for the text of an input term is exact, unless memory was refused.
pub fn read_ground_term_is_exact()
    ensures { ReadTermIsExact }
{}

/// What is answered for the text of what is asked for in mid-run is exact, unless memory was refused.
pub fn read_ask_is_exact()
    ensures { ReadAskIsExact }
{}

/// What is answered for the text of what a history says was asked for is exact, unless memory was refused.
pub fn read_body_is_exact()
    ensures { ReadBodyIsExact }
{}

/// What was read as an input term is, printed, read again as itself.
pub fn printed_terms_are_read_again()
    ensures { PrintedTermsAreReadAgain }
{}

/// Goals that the grammar has a text for are, printed, read again as themselves, and no two lists of such goals are printed alike.
pub fn printed_goals_are_read_again()
    ensures { PrintedGoalsAreReadAgain }
{}
