// Laws of faults, each as the contract of a function.
ghost use Rattle.ghc_flat.specs.Checked.{CheckIsExact, QueryFaultsAreTold};

/// What is answered for a written program and a query is exact, unless memory was refused.
pub fn check_is_exact()
    ensures { CheckIsExact }
{}

/// The fault of a program and a query is the query's just where the same program is accepted with the query `true`.
pub fn query_faults_are_told()
    ensures { QueryFaultsAreTold }
{}
