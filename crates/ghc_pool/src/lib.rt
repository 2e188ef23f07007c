//! Runs: steps of ready goals, taken one after another, until there is a reason to stop; and rounds of many workers over stealing deques.
#![tactic(auto)]

mod answer;
mod craft;
mod deciding;
mod gate;
mod heard;
mod laws;
mod manner;
mod mode;
mod rounds;
mod runs;
mod scope;
mod stop;
mod workers;

pub use answer::{Answer, RoundStop, Work};
pub use gate::Gate;
pub use laws::{runs_add_at_the_end, runs_reduce};
pub use mode::Mode;
pub use rounds::round::{RoundReport, round};
pub use runs::alone::run;
pub use runs::run::run_together;
pub use scope::Scope;
pub use stop::{Report, Stop};
pub use workers::Workers;

#[cfg(test)]
mod tests;
