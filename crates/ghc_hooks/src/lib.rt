//! The status of goals, the face of a state, noted outcomes and untried goals.
#![tactic(auto)]

mod copies;
mod face;
mod few_goals;
mod goal_set;
mod heard;
mod laws;
mod looks;
mod note;
mod notes;
mod reached;
mod trial;
mod tries;
mod unblocked;

pub use copies::variables_again;
pub use face::{Face, Status};
pub use laws::{
    each_goal_has_a_status, exact_notes_await_what_is_looked_at, exact_notes_stay_exact,
    face_is_one, goals_wait_for_what_they_look_at, looked_is_of_what_is_looked_at,
    settled_notes_show_the_face, status_is_of_what_is_looked_at, status_is_one,
};
pub use note::{Note, Verdict};
pub use reached::reached_from;
pub use trial::try_goal;
pub use tries::Tries;
pub use unblocked::Unblocked;
