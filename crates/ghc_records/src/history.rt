// Histories: what a save tells of a run.
ghost use Rattle.std.specs.Prelude.{◌≡◌, ◌≤◌, [], length, take, IfOk, IsOk};
ghost use Rattle.ghc_records.specs.Numbers.{kept_limit};

use crate::step::Step;
use std::alloc::{AllocError, Global};
use std::marker::Model;
use std::sync::Arc;

/// A history: the kept steps in recorded order, a million at most, and the number that the next step gets. Its steps are shared with
/// others that begin with them.
#[derive(Drop)]
pub struct History {
    // none where there is no step; else the first of these, so many as counted
    list: Option<Arc<Vec<Step>>>,
    count: u32,
    next: u32,
}

impl Model for History {
    ghost use Rattle.std.specs.Prelude.{◌≤◌, [], length, option_map, take, unwrap_or};
    ghost use Rattle.ghc_records.specs.Numbers.{kept_limit};
    ghost use Rattle.ghc_records.specs.History.{History};
    ghost use Rattle.ghc_records.specs.inner.HistoryCode.{history_code};

    ghost Value = { History };

    ghost coded = { history_code };

    ghost view = { λ h. record { steps = take h.count (unwrap_or (option_map (λ list. list.value.items) h.list) []); next = h.next } };

    ghost invariant = { λ h. (h.count ≤ length (unwrap_or (option_map (λ list. list.value.items) h.list) [])) × (h.count ≤ kept_limit) };
}

impl History {
    /// The history of no steps, after which a step gets the number `next`. It takes no memory.
    pub fn empty(next: u32) -> History
        ensures { result ≡ record { steps = []; next = next } }
    {
        History {
            list: None,
            count: 0,
            next,
        }
    }

    /// The history of these steps, a million at most, after which a step gets the number `next`. It fails only where memory is
    /// refused, and not where there is no step.
    pub fn new(alloc: Global, steps: Vec<Step>, next: u32) -> Result<History, AllocError>
        requires { length steps.items ≤ kept_limit }
        ensures history { IfOk result (λ history. history ≡ record { steps = steps.items; next = next }) }
        ensures no_steps { length steps.items ≡ 0 → IsOk result }
    {
        let count = steps.len() as u32;
        if count == 0 {
            return Ok(History::empty(next));
        }
        match Arc::new(alloc, steps) {
            Ok(list) => Ok(History {
                list: Some(list),
                count,
                next,
            }),
            Err(_) => Err(AllocError),
        }
    }

    /// Its steps, in recorded order.
    pub fn steps(&self) -> &[Step]
        ensures steps { result.now ≡ self.now.steps }
        ensures few { length self.now.steps ≤ kept_limit }
    {
        match &self.list {
            Some(list) => &list.as_slice()[..self.count as usize],
            None => &[],
        }
    }

    /// The number that the next step gets.
    pub fn next(&self) -> u32
        ensures { result ≡ self.now.next }
    {
        self.next
    }

    /// The history of the first of its steps, so many, which are shared: one step. It fails only where a count of handles is full.
    #[inline(always)]
    pub fn first(&self, count: u32) -> Result<History, AllocError>
        requires { count ≤ length self.now.steps }
        ensures { IfOk result (λ history. history ≡ record { steps = take count self.now.steps; next = self.now.next }) }
    {
        let list = match &self.list {
            Some(list) => Some(Arc::try_clone(list)?),
            None => None,
        };
        Ok(History {
            list,
            count,
            next: self.next,
        })
    }

    /// The same history once more, with its steps shared: one step. It fails only where a count of handles is full.
    pub fn share(&self) -> Result<History, AllocError>
        ensures { IfOk result (λ history. history ≡ self.now) }
    {
        self.first(self.count)
    }
}
