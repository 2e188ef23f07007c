// Laws about spies, each as the contract of a function.
ghost use Rattle.ghc_trace.specs.SpyLaws.{ListedSpiesComeBack};

/// A set of spies that is listed in order is the set of what is listed, so that what is saved of spies comes back.
pub fn listed_spies_come_back()
    ensures { ListedSpiesComeBack }
{}
