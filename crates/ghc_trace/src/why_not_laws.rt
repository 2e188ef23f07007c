// Laws of what `whynot` tells, each as the contract of a function.
ghost use Rattle.ghc_trace.specs.WhyNotLaws.{WhatMayBeBoundIsReached, WhatStaysUnboundIsNeverBound, WhoHadItHasItOrLostIt};

/// Where no goal that reaches a variable asked about may take a step, none of these variables is bound after any steps, inputs and closes.
pub fn what_stays_unbound_is_never_bound()
    ensures { WhatStaysUnboundIsNeverBound }
{}

/// A step that took a goal which reaches a variable lost it, or made a goal that reaches it.
pub fn who_had_it_has_it_or_lost_it()
    ensures { WhoHadItHasItOrLostIt }
{}

/// A variable asked about may be bound just where a goal that may take a step, now or later, reaches one asked about first.
pub fn what_may_be_bound_is_reached()
    ensures { WhatMayBeBoundIsReached }
{}
