// Values that can be shared.
ghost use base.Stored.{Gv};
ghost use Rattle.std.specs.Prelude.{◌≡◌, Bool, List, Option, None, length};
ghost use Rattle.ghc_shared.specs.Receipts.{AddsIfAccepted};

use std::alloc::Global;

/// A value that tells a list, its history, which only grows.
pub trait Growing {
    /// What the history consists of.
    type Item;

    /// What is asked of the value.
    type Ask: Drop;

    /// What is replied to it.
    type Reply: Drop;

    /// The history: how the value began, and then an item for each accepted call, in their order.
    ghost history: { Self → List Self.Item };

    /// The code of how the value began, which no call changes.
    ghost opened: { Self → Gv };

    /// The history is one that can be.
    ghost legal: { List Self.Item → Type 0 };

    /// What may be replied to a call after these items: with the item that it adds, where it is accepted, and else with none.
    ghost answers: { List Self.Item → Self.Ask → Self.Reply → Option Self.Item → Type 0 };

    /// Whether a call is a submit, which its pass counts.
    ghost submits: { Self.Ask → Bool };

    /// What a call with this reply may do to the value beside its history.
    ghost does: { Self → Self.Ask → Self.Reply → Self → Type 0 };

    /// What a caller knows, who makes the call of a value that began so.
    ghost knows: { Gv → Self.Ask → Type 0 };

    /// The reply to a call whose place there is no room for: it is not made, and the history stays.
    fn refuse(&mut self, alloc: Global, ask: &Self::Ask) -> Self::Reply
        ensures same { history self.new ≡ history self.old }
        ensures opened { opened self.new ≡ opened self.old }
        ensures reply { answers (history self.old) ask.now result None }
        ensures does { does self.old ask.now result self.new };

    /// How many items the history has. It is asked twice in each call, so it should cost no more than a look.
    fn len(&self) -> u64
        ensures length { result ≡ length (history self.now) }
        ensures legal { legal (history self.now) };

    /// Whether the call is a submit: a comparison.
    fn is_submit(&self, ask: &Self::Ask) -> bool
        ensures { result ≡ submits ask.now };

    /// Makes a call, and says beside the reply whether it was accepted. Where memory is refused, so is the call.
    fn call(&mut self, alloc: Global, ask: Self::Ask) -> (Self::Reply, bool)
        requires { knows (opened self.old) ask }
        ensures adds { AddsIfAccepted answers result.1 (history self.old) (history self.new) ask result.0 }
        ensures opened { opened self.new ≡ opened self.old }
        ensures does { does self.old ask result.0 self.new };
}
