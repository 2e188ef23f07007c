// Entries of a journal.

use crate::record::Record;

/// An entry: a step was taken, step n was undone, rolled back or redone, or the record was put into another order.
pub enum Entry {
    /// A step was taken: a handle of its record.
    Took(Record),
    /// The step of this number was undone.
    Undid(u32),
    /// The step of this number was rolled back.
    Rolled(u32),
    /// The step of this number was redone.
    Redid(u32),
    /// The record was put into this order. It stands in memory of its own, so that an entry is two words.
    Reordered(Box<Vec<u32>>),
}

impl Drop for Entry {
    fn drop(self) {
        match self {
            Entry::Took(_record) => {}
            Entry::Reordered(_order) => {}
            Entry::Undid(_) | Entry::Rolled(_) | Entry::Redid(_) => {}
        }
    }
}
