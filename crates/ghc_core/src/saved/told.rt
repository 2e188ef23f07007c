// The chronicle that tells a core.
ghost use Rattle.std.specs.Prelude.{◌≡◌, ◌+◌, ◌<◌, ◌++◌, drop, length, map, IfOk, OnOk};
ghost use Rattle.ghc_records.specs.inner.EntryCode.{entry_of};
ghost use Rattle.ghc_core.specs.Resume.{chronicle_of_world, opening_of};
ghost use Rattle.ghc_records.specs.inner.WrittenEntryCode.{said_by};

use crate::core_state::Core;
use crate::saved::taken_again::numbers_again;
use ghc_records::{Chronicle, Entry, History, Journal, Predicate, WrittenEntry};
use std::alloc::{AllocError, Global};

// The entry as a chronicle has it.
fn entry_told(alloc: Global, entry: &Entry) -> Result<WrittenEntry, AllocError>
    ensures { IfOk result (λ told. said_by told ≡ entry_of entry.now) }
{
    match entry {
        Entry::Took(record) => Ok(WrittenEntry::Took(record.step()?)),
        Entry::Undid(number) => Ok(WrittenEntry::Undid(*number)),
        Entry::Rolled(number) => Ok(WrittenEntry::Rolled(*number)),
        Entry::Redid(number) => Ok(WrittenEntry::Redid(*number)),
        Entry::Reordered(order) => Ok(WrittenEntry::Reordered(numbers_again(
            alloc,
            order.as_slice(),
        )?)),
    }
}

// Puts the entry of the journal at this place after the others.
fn push_told(
    alloc: Global,
    journal: &Journal,
    place: usize,
    told: &mut Vec<WrittenEntry>,
) -> Result<(), AllocError>
    requires there { place < length journal.now.held }
    ensures { OnOk result (map said_by told.new.items ++ drop (place + 1) journal.now.held ≡ map said_by told.old.items ++ drop place journal.now.held) }
{
    let Some(entry) = journal.at(place) else {
        return Ok(());
    };
    told.push(entry_told(alloc, entry)?)?;
    Ok(())
}

// The entries of the journal after the first so many, as a chronicle has them: one step for each, and as many as an order is long.
fn entries_told(
    alloc: Global,
    journal: &Journal,
    first: usize,
) -> Result<Vec<WrittenEntry>, AllocError>
    ensures { IfOk result (λ told. map said_by told.items ≡ drop first journal.now.held) }
{
    let count = journal.len();
    let mut told = Vec::new(alloc);
    for place in first..count {
        push_told(alloc, journal, place, &mut told)?;
    }
    Ok(told)
}

impl Core {
    /// What the core began with: the steps that were loaded, and the number that the next step got after them.
    pub fn opening(&self) -> &History
        ensures { result.now ≡ opening_of self.now.world }
    {
        &self.loaded
    }

    /// The chronicle that tells the whole of the core, with these predicates spied: what it began with, all entries of its journal
    /// after that, and the number that the next step gets. It shares the opening, and takes one step for each entry, and for each
    /// number of an order. It fails only where memory is refused or a count of handles is full.
    pub fn chronicle(&self, alloc: Global, spies: Vec<Predicate>) -> Result<Chronicle, AllocError>
        ensures { IfOk result (λ chronicle. chronicle ≡ chronicle_of_world self.now.world spies.items) }
    {
        let opening = self.loaded.share()?;
        let entries = entries_told(alloc, &self.journal, self.loaded.steps().len())?;
        Ok(Chronicle::new(opening, entries, spies, self.next))
    }
}
