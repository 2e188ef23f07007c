// Why a kept step was possible: the steps on which it depends.
ghost use Rattle.std.specs.Prelude.{◌≡◌, ◌⊎◌, IfOk, IfErr, Err};
ghost use Rattle.ghc_depend.specs.Depend.{IsNotKept};
ghost use Rattle.ghc_trace.specs.Why.{AreReasonsTold};

use crate::cause_places::add_causes;
use ghc_depend::{Cause, Sources, direct_by_sources};
use ghc_records::Records;
use ghc_term::Fault;
use std::alloc::{AllocError, Global};
use std::collections::BTreeSet;

/// A step on which another one depends directly, by its number, and for which cause.
#[derive(Clone, Copy, Drop, Debug, PartialEq, Eq)]
pub struct Reason {
    pub step: u32,
    pub cause: Cause,
}

/// The steps on which the kept step of this number depends directly, in recorded order, each with its cause. It refuses with `NotKept`
/// exactly where the step is not kept, before it takes memory; else only with `Memory`. It costs some look-ups for each variable that
/// the step read or that stands in what it asks for, and puts the places of the steps so found in order.
pub fn why(alloc: Global, records: &Records, number: u32) -> Result<Vec<Reason>, Fault>
    ensures found { IfOk result (λ reasons. AreReasonsTold records.now.held number reasons.items) }
    ensures not_kept { IsNotKept records.now.held number → result ≡ Err Fault.NotKept }
    ensures fault { IfErr result (λ f. (f ≡ Fault.Memory) ⊎ ((f ≡ Fault.NotKept) × IsNotKept records.now.held number)) }
{
    let _count = records.len();
    let Some(place) = records.place_of(number) else {
        return Err(Fault::NotKept);
    };
    let kept = records.at(place).unwrap();
    let sources = Sources::of(alloc, records, kept)?;
    let mut ahead = BTreeSet::new(alloc);
    add_causes(&mut ahead, records, kept, place)?;
    let mut reasons = Vec::new(alloc);
    while let Some(earlier) = ahead.pop_first() {
        let step = records.at(earlier).unwrap().number();
        if let Some(cause) = direct_by_sources(records, &sources, number, step) {
            match reasons.push(Reason { step, cause }) {
                Ok(()) => {}
                Err(_) => return Err(Fault::Memory),
            }
        }
    }
    Ok(reasons)
}
