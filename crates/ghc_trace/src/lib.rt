//! What a step shows as it is taken, and which goals a change leaves stuck. Why a step was possible, and by which other clauses. What
//! bound the variables of a chain, and why others are not bound. Which goals descend from a goal, and which predicates are spied.
#![tactic(auto)]

mod answered;
mod asked_about;
mod backward;
mod blame_lines;
mod blaming;
mod call_given;
mod cause_places;
mod descent;
mod disturbed;
mod explaining;
mod gathered;
mod given;
mod given_goal;
mod goal_laws;
mod goal_lines;
mod goal_parts;
mod holding;
mod judgements;
mod laws;
mod lost;
mod news;
mod next_question;
mod others;
mod part_lines;
mod parts;
mod place_slices;
mod port;
mod questions;
mod reason_text;
mod reasons;
mod slice_calls;
mod slice_store;
mod slices;
mod spies;
mod spy_laws;
mod status_text;
mod step_goals;
mod step_ports;
mod stuck;
mod tops;
mod verdict_lines;
mod who_bound;
mod why_not;
mod why_not_laws;
mod written_in;

pub use blaming::push_blame;
pub use descent::descends;
pub use disturbed::Disturbed;
pub use explaining::{push_goal, push_holders, push_steps};
pub use given::slice_of;
pub use given_goal::slice_of_goal;
pub use goal_laws::{lines_are_of_goals, notes_tell_goals};
pub use goal_lines::push_goals;
pub use holding::{Holder, holders, holders_for};
pub use judgements::{Answer, Answers, Judgement, Subject};
pub use laws::{
    blame_goes_on, blame_has_one_top, blame_is_sound, notes_tell_news, notes_tell_ports,
    other_clauses_are_taken,
};
pub use others::other_clauses;
pub use part_lines::push_call;
pub use parts::taker_of;
pub use port::{Port, push_port, push_ports};
pub use reason_text::push_reason;
pub use reasons::{Reason, why};
pub use slices::slice;
pub use spies::SpySet;
pub use spy_laws::listed_spies_come_back;
pub use status_text::push_status;
pub use step_goals::push_step_with_goal;
pub use step_ports::{ports, push_ports_of};
pub use stuck::Stuck;
pub use who_bound::{Binder, binders, push_binder, who};
pub use why_not::{push_why_not, push_why_not_goal};
pub use why_not_laws::{
    what_may_be_bound_is_reached, what_stays_unbound_is_never_bound, who_had_it_has_it_or_lost_it,
};
