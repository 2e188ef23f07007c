//! Records of steps, their replay, the journal and its opening; and the texts of histories and sessions (chronicles).
#![tactic(auto)]

mod addition;
mod binding;
mod chronicle;
mod entry;
mod handles;
mod history;
mod journal;
mod laws;
mod making;
mod predicate;
mod record;
mod records;
mod removal;
mod shelf;
mod state;
mod step;
mod table;
mod text;
mod written_entry;

pub use addition::Addition;
pub use chronicle::Chronicle;
pub use entry::Entry;
pub use history::History;
pub use journal::Journal;
pub use laws::{replay_is_one, replay_is_well_made};
pub use predicate::Predicate;
pub use record::Record;
pub use records::Records;
pub use removal::Removal;
pub use shelf::Shelf;
pub use state::State;
pub use step::Step;
pub use text::chronicle_laws::{
    cut_chronicles_are_refused, texts_tell_one_chronicle, written_chronicles_are_read_again,
};
pub use text::chronicle_reading::{is_chronicle, read_chronicle};
pub use text::chronicle_writing::write_chronicle;
pub use text::entry_text::write_entry;
pub use text::history_laws::{
    cut_texts_are_refused, read_history_is_exact, written_histories_are_read_again,
};
pub use text::history_range::history_is_in_range;
pub use text::history_reading::read_history;
pub use text::history_writing::write_history;
pub use text::step_text::{
    push_goal_name, push_journal_step, push_record, push_step, push_variables,
};
pub use written_entry::WrittenEntry;
