//! What a step does: the effect of each act, and what an attempt at a goal answers.
#![tactic(auto)]

mod act;
mod ask;
mod asked;
mod attempting;
mod called;
mod calls;
mod effect;
mod equations;
mod expression_reads;
mod facts;
mod firing;
mod goals;
mod instances;
mod laws;
mod made;
mod meter;
mod proposal;
mod recorded;
mod streams;

pub use act::Act;
pub use ask::{Ask, ask_as, number_asked};
pub use asked::Asked;
pub use attempting::{attempt, finish, fire_as};
pub use effect::{Effect, NO_STEP};
pub use facts::{append_run, bound_tail_takes_nothing, input_and_close, input_reads_alias};
pub use firing::Firing;
pub use goals::Goals;
pub use instances::instance;
pub use laws::{
    attempt_has_one_answer, attempt_is_exact, attempt_is_of_what_is_looked_at,
    each_act_has_an_effect_or_none, each_attempt_has_an_answer, each_effect_is_decided,
    effect_binds_and_reads, effect_is_local, effect_is_of_what_it_read, effect_is_one,
    effect_keeps_acyclic, effect_under_a_number, effect_under_each_number, effect_variables,
    proposal_as_a_step, proposal_is_effect,
};
pub use made::{Made, MadeGoal};
pub use meter::Meter;
pub use proposal::Proposal;
pub use recorded::{effect_as, has_effect};
pub use streams::{close, feed};
