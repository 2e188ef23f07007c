//! Dependence between kept steps, consequences, deletion, lawful orders, and the kept list of a journal.
#![tactic(auto)]

mod cause;
mod consequence;
mod facts;
mod lawful_order;
mod laws;
mod one_pass;
mod places;
mod sources;
mod users;

pub use cause::{Cause, direct, direct_by_sources};
pub use consequence::{consequences, first_consequence};
pub use facts::{append_depends, append_orders, waking_depends};
pub use lawful_order::lawful;
pub use laws::{
    consequences_have_one_answer, goal_slices_are_least, gone_come_back, keeps_is_one,
    law_of_deletion, lawful_order_keeps_replay, neighbours_change_places, orders_are_decided,
    orders_are_swaps, orders_have_one_answer, others_see_what_parts_gave, parts_are_parted,
    parts_come_together, parts_run_alone, parts_run_among_others, places_are_alone,
    replay_is_of_its_clauses, replaying_orders_are_lawful, replays_extend, roll_keeps_replay,
    same_from_has_the_same_text, slices_are_least, steps_square, undo_and_step_square,
    undo_keeps_replay, undoing_ends, undos_square, without_steps_is_one, wrong_parts_have_faults,
};
pub use sources::{Sources, place_of_binder, place_of_goal_maker, place_of_maker};
