//! The core: worlds, events and replies, one relation for each event, and legal histories.
#![tactic(auto)]

mod changes;
mod command;
mod copies;
mod core_state;
mod event;
mod excerpt;
mod face;
mod hands;
mod laws;
mod replies;
mod reply;
mod saved;
mod settle;
mod shown;
mod step;
mod stream_goals;
mod variables;
mod world;

pub use changes::arrange::Arrangement;
pub use changes::carrying::is_stream;
pub use changes::order::Order;
pub use changes::rollback::Rollback;
pub use changes::{Change, Coming, Going};
pub use command::Command;
pub use core_state::Core;
pub use event::Event;
pub use excerpt::{Excerpt, FEW_CLAUSES};
pub use hands::Hands;
pub use laws::facts::{redo_is_changed, second_hand_is_stale};
pub use laws::history_laws::{
    journal_tells_what_is_kept, leaves_is_one, legal_is_reachable, reachable_is_legal,
    reachable_is_one,
};
pub use laws::load_laws::{load_is_exact, saved_is_loaded_again};
pub use laws::resume_laws::{
    carried_out_is_legal, resume_is_exact, what_is_carried_out_is_told,
    what_is_read_can_be_resumed, what_is_told_is_carried_out,
};
pub use laws::undo_laws::{
    neighbours_are_arranged, reachable_is_replay, roll_takes_steps_away, step_then_undo,
    undo_takes_step_away, undone_then_redone,
};
pub use laws::world_laws::{answers_add_what_they_tell, play_stays_reachable};
pub use laws::{
    commit_is_exact, events_have_an_answer, events_have_one_answer, events_lead_where_changes_lead,
    reachable_is_named, reachable_is_orderly, reachable_is_well_made, reachable_keeps,
    step_is_exact, still_holds_as_next, stream_step_is_exact,
};
pub use reply::Reply;
pub use variables::is_variable_of;
pub use world::World;
