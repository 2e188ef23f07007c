//! A value behind one lock that tells a history which only grows, as a core does, and passes, each of which knows how that history began.
#![tactic(auto)]

mod booking;
mod calls;
mod closing;
mod core_calls;
mod exclusive;
mod growing;
mod keeper;
mod knowledge;
mod locked;
mod naming;
mod opening;
mod pass;
mod receipt;
mod shared;
mod telling;
mod tending;
mod waking;

pub use calls::{Call, HistoryItem};
pub use core_calls::Shown;
pub use growing::Growing;
pub use knowledge::Knowledge;
pub use naming::Naming;
pub use opening::Opening;
pub use pass::Pass;
pub use receipt::Receipt;
pub use shared::Shared;
pub use tending::{Tender, tend_all};

#[cfg(test)]
mod tests;
