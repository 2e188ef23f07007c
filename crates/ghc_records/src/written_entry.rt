// Entries as chronicles have them.

use crate::step::Step;

/// An entry as it is written: a step was taken, step n was undone, rolled back or redone, or the record was put into another order.
pub enum WrittenEntry {
    /// This step was taken.
    Took(Step),
    /// The step of this number was undone.
    Undid(u32),
    /// The step of this number was rolled back.
    Rolled(u32),
    /// The step of this number was redone.
    Redid(u32),
    /// The record was put into this order.
    Reordered(Vec<u32>),
}

impl Drop for WrittenEntry {
    fn drop(self) {
        match self {
            WrittenEntry::Took(_step) => {}
            WrittenEntry::Reordered(_order) => {}
            WrittenEntry::Undid(_) | WrittenEntry::Rolled(_) | WrittenEntry::Redid(_) => {}
        }
    }
}
