// Laws of listings, each as the contract of a function.
ghost use Rattle.ghc_console.specs.ListingLaws.{ListingsAreWhole};

/// A listing of the records or of a session is its text, unless a line of it says that memory was refused.
pub fn listings_are_whole()
    ensures { ListingsAreWhole }
{}
