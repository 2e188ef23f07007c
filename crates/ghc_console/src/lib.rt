//! The console: devices, the lines of an input, and the commands that lines say.
#![tactic(auto)]

mod answer;
mod answered;
mod asked_for;
mod blame_words;
mod command;
mod count_text;
mod debugger;
mod devices;
mod input_text;
mod named_variable;
mod predicate_words;
mod replies;
mod schedules;
mod session_loop;
mod word;
pub mod words;

pub use command::{LineCommand, parse};
pub use debugger::Debugger;
pub use devices::device::{Broken, Device};
pub use devices::line_buffer::LINE_LIMIT;
pub use devices::lines::Lines;
pub use devices::reading::{Ahead, Line};
pub use devices::script::Script;
pub use devices::writing::write_all;
pub use input_text::InputText;
pub use named_variable::variable_named;
pub use replies::keep_laws::{keep_leaves_the_goal, keep_leaves_the_slice};
pub use replies::listing_laws::listings_are_whole;
pub use schedules::line::{ScheduleLine, read_schedule_line};
pub use schedules::play::schedule;
pub use session_loop::session;
pub use word::Word;
