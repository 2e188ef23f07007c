// Laws of chronicles, each as the contract of a function.
ghost use Rattle.ghc_core.specs.ResumeLaws.{ResumeIsExact, CarriedOutIsLegal, WhatIsToldIsCarriedOut, WhatIsCarriedOutIsTold, WhatIsReadCanBeResumed};

/// What is answered for a chronicle is exact, unless memory was refused: it leaves one world or is refused at one line, and never
/// both.
pub fn resume_is_exact()
    ensures { ResumeIsExact }
{}

/// What a chronicle leaves that is carried out is what its entries leave as a legal history.
pub fn carried_out_is_legal()
    ensures { CarriedOutIsLegal }
{}

/// The chronicle of a reachable world is carried out again, and leaves the same world, whole, and nothing else.
pub fn what_is_told_is_carried_out()
    ensures { WhatIsToldIsCarriedOut }
{}

/// A chronicle that was carried out is written again as it was.
pub fn what_is_carried_out_is_told()
    ensures { WhatIsCarriedOutIsTold }
{}

/// A chronicle that was read can be carried out.
pub fn what_is_read_can_be_resumed()
    ensures { WhatIsReadCanBeResumed }
{}
