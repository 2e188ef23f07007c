// Chronicles: what a save tells of a run so that all of it comes back.
ghost use Rattle.std.specs.Prelude.{◌≡◌, map};
ghost use Rattle.ghc_records.specs.inner.WrittenEntryCode.{said_by};

use crate::history::History;
use crate::predicate::Predicate;
use crate::written_entry::WrittenEntry;
use std::marker::Model;

/// A chronicle: what a run began with, as a history; the entries after that, in order; the spied predicates; and the next step's
/// number.
pub struct Chronicle {
    opening: History,
    entries: Vec<WrittenEntry>,
    spies: Vec<Predicate>,
    next: u32,
}

impl Drop for Chronicle {
    fn drop(self) {
        let Chronicle {
            opening: _opening,
            entries: _entries,
            spies: _spies,
            next: _next,
        } = self;
    }
}

impl Model for Chronicle {
    ghost use Rattle.std.specs.Prelude.{map};
    ghost use Rattle.ghc_records.specs.Chronicle.{Chronicle};
    ghost use Rattle.ghc_records.specs.inner.ChronicleCode.{chronicle_code};
    ghost use Rattle.ghc_records.specs.inner.WrittenEntryCode.{said_by};

    ghost Value = { Chronicle };

    ghost coded = { chronicle_code };

    ghost view = { λ c. record { opening = c.opening; entries = map said_by c.entries.items; spies = c.spies.items; next = c.next } };
}

impl Chronicle {
    /// The chronicle of these parts.
    pub fn new(
        opening: History,
        entries: Vec<WrittenEntry>,
        spies: Vec<Predicate>,
        next: u32,
    ) -> Chronicle
        ensures { result ≡ record { opening = opening; entries = map said_by entries.items; spies = spies.items; next = next } }
    {
        Chronicle {
            opening,
            entries,
            spies,
            next,
        }
    }

    /// What the run began with.
    pub fn opening(&self) -> &History
        ensures { result.now ≡ self.now.opening }
    {
        &self.opening
    }

    /// The entries after the opening, in order.
    pub fn entries(&self) -> &[WrittenEntry]
        ensures { map said_by result.now ≡ self.now.entries }
    {
        self.entries.as_slice()
    }

    /// The predicates that are spied, in the order of the text.
    pub fn spies(&self) -> &[Predicate]
        ensures { result.now ≡ self.now.spies }
    {
        self.spies.as_slice()
    }

    /// The number that the next step gets.
    pub fn next(&self) -> u32
        ensures { result ≡ self.now.next }
    {
        self.next
    }

    /// Opening, entries and spies, given up.
    pub fn into_parts(self) -> (History, Vec<WrittenEntry>, Vec<Predicate>)
        ensures opening { result.0 ≡ self.opening }
        ensures entries { map said_by result.1.items ≡ self.entries }
        ensures spies { result.2.items ≡ self.spies }
    {
        let Chronicle {
            opening,
            entries,
            spies,
            next: _next,
        } = self;
        (opening, entries, spies)
    }
}
