// Laws of effects and of attempts, each as the contract of a function.
ghost use Rattle.ghc_fire.specs.Laws.{EffectIsLocal, EffectIsOfWhatItRead, EffectIsOne, EffectBindsAndReads, EffectUnderEachNumber, EffectKeepsAcyclic, EffectVariables, AttemptHasOneAnswer, AttemptIsExact, EachAttemptHasAnAnswer, EachActHasAnEffectOrNone, EachEffectIsDecided, AttemptIsOfWhatIsLookedAt, EffectUnderANumber, ProposalIsEffect, ProposalAsAStep};

/// Bindings of variables that a step did not read may be taken away.
pub fn effect_is_local()
    ensures { EffectIsLocal }
{}

/// Stores that agree on what a call's step read give its clause one effect.
pub fn effect_is_of_what_it_read()
    ensures { EffectIsOfWhatItRead }
{}

/// In an acyclic store an act has one effect at most.
pub fn effect_is_one()
    ensures { EffectIsOne }
{}

/// A step binds what was unbound, and reads what was bound.
pub fn effect_binds_and_reads()
    ensures { EffectBindsAndReads }
{}

/// What is possible under one number is possible under each, with the same reads.
pub fn effect_under_each_number()
    ensures { EffectUnderEachNumber }
{}

/// A step keeps the store acyclic.
pub fn effect_keeps_acyclic()
    ensures { EffectKeepsAcyclic }
{}

/// The variables that a step binds, or puts into values or goals, come from its goal, the store or the step.
pub fn effect_variables()
    ensures { EffectVariables }
{}

/// In an acyclic store an attempt has one answer at most.
pub fn attempt_has_one_answer()
    ensures { AttemptHasOneAnswer }
{}

/// In an acyclic store what is answered for an attempt is exact, unless memory was refused.
pub fn attempt_is_exact()
    ensures { AttemptIsExact }
{}

/// In an acyclic finite store each attempt has an answer.
pub fn each_attempt_has_an_answer()
    ensures { EachAttemptHasAnAnswer }
{}

/// In an acyclic finite store each act on a goal has an effect or has none.
pub fn each_act_has_an_effect_or_none()
    ensures { EachActHasAnEffectOrNone }
{}

/// In an acyclic finite store it is decided of each effect whether an act has it.
pub fn each_effect_is_decided()
    ensures { EachEffectIsDecided }
{}

/// Stores that agree on what a goal looks at answer an attempt at it alike.
pub fn attempt_is_of_what_is_looked_at()
    ensures { AttemptIsOfWhatIsLookedAt }
{}

/// The effect of a reduction under any number is, as step n has it, its effect as step n.
pub fn effect_under_a_number()
    ensures { EffectUnderANumber }
{}

/// What an attempt proposes is, as step n has it, the effect of the act as step n.
pub fn proposal_is_effect()
    ensures { ProposalIsEffect }
{}

/// What an attempt proposes as step n is the effect of the act as step n, and an attempt under any number proposes the same
/// act.
pub fn proposal_as_a_step()
    ensures { ProposalAsAStep }
{}
