// Slices of the record: kept steps with all on which they depend.
ghost use Rattle.std.specs.Prelude.{IfOk, OnOk};
ghost use Rattle.ghc_trace.specs.Causes.{HasNumbered, IsSliceTold};

use crate::cause_places::add_causes;
use ghc_records::Records;
use std::alloc::{AllocError, Global};
use std::collections::BTreeSet;

/// Adds the places of the kept steps of these numbers: one look-up for each.
pub(crate) fn add_numbered(
    places: &mut BTreeSet<usize>,
    records: &Records,
    ns: &[u32],
) -> Result<(), AllocError>
    ensures { OnOk result (HasNumbered records.now.slots ns.now places.old.keys places.new.keys) }
{
    let _count = records.len();
    for n in ns {
        if let Some(place) = records.place_of(*n) {
            match places.insert(place) {
                Ok(_) => {}
                Err(_) => return Err(AllocError),
            }
        }
    }
    Ok(())
}

/// The numbers of the kept steps that have one of these numbers, and of all on which they depend, in recorded order. It costs a
/// look-up for each number, and for each goal, read and name of a step of the slice, and puts the places of those in order. What is
/// kept beside the slice costs nothing. It fails only where memory is refused.
pub fn slice(alloc: Global, records: &Records, roots: &[u32]) -> Result<Vec<u32>, AllocError>
    ensures { IfOk result (λ told. IsSliceTold records.now.held roots.now told.items) }
{
    let _count = records.len();
    let mut behind = BTreeSet::new(alloc);
    add_numbered(&mut behind, records, roots)?;
    let mut found = Vec::new(alloc);
    while let Some(place) = behind.pop_last() {
        let step = records.at(place).unwrap();
        found.push(step.number())?;
        add_causes(&mut behind, records, step, place)?;
    }
    found.reverse();
    Ok(found)
}
