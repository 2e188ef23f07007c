// What a pass asks of a shared core, and of what the core's history consists.
use ghc_core::Command;
use ghc_fire::Proposal;
use ghc_term::GoalName;
use std::marker::Model;

/// A call that can change a shared core.
#[derive(Drop)]
pub enum Call {
    /// The step that was proposed is to be taken.
    Submit(Proposal),
    /// The same, and an attempt in a world of the core's opening proposed the step.
    SubmitProposed(Proposal),
    /// The goal of this name is to be tried and noted.
    Note(GoalName),
    /// The core gets the command.
    Command(Command),
}

/// An item of the history of a core, as contracts see it: how the core was opened, or an entry of its journal. No value of this
/// type is made.
pub struct HistoryItem {
    undone: u64,
}

impl Model for HistoryItem {
    ghost use Rattle.ghc_records.specs.Journal.{Item, entered, undid};
    ghost use Rattle.ghc_shared.specs.inner.ItemCode.{item_code};

    ghost Value = { Item };

    ghost coded = { item_code };

    ghost view = { λ i. entered (undid i.undone) };
}
