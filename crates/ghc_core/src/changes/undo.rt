// Undoing a step that nothing depends on.
ghost use Rattle.std.specs.Prelude.{◌≡◌, ◌⊎◌, ◌∷◌, [], IfOk, IfErr, OnOk, OnErr, Err};
ghost use Rattle.ghc_term.specs.declared.fault.Fault.{Fault as fault_spec};
ghost use Rattle.ghc_hooks.specs.Notes.{AreLeft};
ghost use Rattle.ghc_records.specs.Record.{Record as record_spec};
ghost use Rattle.ghc_depend.specs.Depend.{Follows, IsKeptAs};
ghost use Rattle.ghc_depend.specs.Deletion.{IsBoundIn};
ghost use Rattle.ghc_core.specs.Events.{undo, undone};
ghost use Rattle.ghc_core.specs.Answers.{Obeys};
ghost use Rattle.ghc_core.specs.Refusals.{UndoFails, CanUndo};
ghost use Rattle.ghc_core.specs.declared.changes.Change.TheVariants.{Goes as goes};
ghost use Rattle.ghc_core.specs.Change.{CanChange};
ghost use Rattle.ghc_core.specs.Core.{Stays};

use crate::changes::rollback::Rollback;
use crate::changes::{Change, Going};
use crate::core_state::Core;
use ghc_depend::first_consequence;
use ghc_records::Removal;
use ghc_term::Fault;
use std::alloc::Global;

impl Core {
    /// Finds what it takes to undo the step of this number: `NotKept` exactly where the step is not kept; else `HasConsequence`,
    /// with the first consequence in recorded order, exactly where it has one. Else it fails only where a count of handles is full,
    /// with `Memory`. It costs a look-up for each step that depends directly on this one, or a search of the record where its index is not
    /// whole.
    pub fn prepare_undo(&self, alloc: Global, number: u32) -> Result<Rollback, Fault>
        ensures found { IfOk result (λ gone. CanChange self.now.world (goes Going.Alone gone)) }
        ensures step { IfOk result (λ gone. gone.first.number ≡ number) }
        ensures alone { IfOk result (λ gone. (b : record_spec) → ¬ Follows self.now.world.kept gone.first b) }
        ensures fault { IfErr result (λ f. ((f ≡ Fault.Memory) × CanUndo self.now.world.kept number) ⊎ UndoFails self.now.world.kept number f) }
    {
        let Some(kept) = self.records.get(number) else {
            return Err(Fault::NotKept);
        };
        if let Some(step) = first_consequence(&self.records, number) {
            return Err(Fault::HasConsequence { step });
        }
        match Removal::of(kept) {
            Ok(removal) => Ok(Rollback::alone(alloc, removal)),
            Err(_) => Err(Fault::Memory),
        }
    }

    /// Undoes the step of this number: what it bound is unbound, the goals that it made are gone, the goal that it consumed is
    /// there again, and its record goes to the shelf. Untried are then the goal put back and those that looked at what is unbound,
    /// beside those that were. `NotKept` exactly where the step is not kept; else `HasConsequence`, with
    /// the first consequence in recorded order, exactly where it has one. It reports these before it asks for memory. Else it fails
    /// only where memory is refused. A refused undo changes nothing. It costs what `prepare_undo` costs, and some look-ups for each
    /// goal, read and binding of the step, however many steps are kept.
    ///
    /// The rule is that of Danos and Krivine (2004): an action may be undone exactly when all its consequences have been.
    pub fn undo(&mut self, alloc: Global, number: u32) -> Result<(), Fault>
        ensures ok { OnOk result (Obeys ⊥ self.old.world (undo number) (undone (number ∷ [])) self.new.world) }
        ensures fault { IfErr result (λ f. (f ≡ Fault.Memory) ⊎ UndoFails self.old.world.kept number f) }
        ensures refused { (f : fault_spec) → UndoFails self.old.world.kept number f → result ≡ Err f }
        ensures stays { OnErr result (Stays self.old self.new) }
        ensures meter { self.new.meter ≡ self.old.meter }

        // A note stays just where its goal is still there and did not look at what the step had bound.
        ensures notes { OnOk result ((r : record_spec) × IsKeptAs self.old.world.kept number r × AreLeft self.new.world.state.goals (IsBoundIn (r ∷ [])) self.old.notes self.new.notes) }
    {
        self.stands();
        self.index_records();
        let rollback = match self.prepare_undo(alloc, number) {
            Ok(rollback) => rollback,
            Err(fault) => return Err(fault),
        };
        self.make(Change::Goes(Going::Alone, rollback))?;
        Ok(())
    }
}
