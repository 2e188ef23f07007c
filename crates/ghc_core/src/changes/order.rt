// An order into which a record is to be put.
ghost use Rattle.std.specs.Prelude.{◌≡◌, ◌∷◌, ◌++◌, [], OnOk, OnErr};

use std::alloc::{AllocError, Global};
use std::marker::Model;

/// Numbers of steps, in an order. Contracts see the list.
#[derive(Drop)]
pub struct Order {
    numbers: Vec<u32>,
}

impl Model for Order {
    ghost use Rattle.std.specs.Prelude.{List, ℕ};

    ghost Value = { List ℕ };

    ghost view = { λ order. order.numbers.items };
}

impl Order {
    /// No numbers, which take no memory.
    pub fn new(alloc: Global) -> Order
        ensures { result ≡ [] }
    {
        Order {
            numbers: Vec::new(alloc),
        }
    }

    /// One number more, the last.
    pub fn push(&mut self, number: u32) -> Result<(), AllocError>
        ensures pushed { OnOk result (self.new ≡ self.old ++ number ∷ []) }
        ensures stays { OnErr result (self.new ≡ self.old) }
    {
        self.numbers.push(number)?;
        Ok(())
    }

    /// The numbers, in their order.
    pub fn of(numbers: Vec<u32>) -> Order
        ensures { result ≡ numbers.items }
    {
        Order { numbers }
    }

    /// The numbers.
    pub fn as_slice(&self) -> &[u32]
        ensures { result.now ≡ self.now }
    {
        self.numbers.as_slice()
    }
}
