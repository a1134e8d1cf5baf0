//! Sets of numbers.

ghost use Rattle.std.specs.Prelude.{◌≡◌, ◌==◌, ℕ, [], true, OnOk, if◌then◌else◌};
ghost use Rattle.meet_history.specs.Grounds.{has_number};

use std::alloc::{AllocError, Global};
use std::collections::BTreeSet;
use std::marker::Model;

/// A set of numbers.
#[derive(Drop)]
pub(crate) struct Numbers {
    set: BTreeSet<u64>,
}

impl Model for Numbers {
    ghost use Rattle.std.specs.Prelude.{ℕ, List};

    ghost Value = { List ℕ };

    ghost view = { λ numbers. numbers.set.keys };
}

impl Numbers {
    /// No numbers. It doesn't allocate.
    pub(crate) fn new(alloc: Global) -> Self
        ensures { result ≡ [] }
    {
        Numbers {
            set: BTreeSet::new(alloc),
        }
    }

    /// Whether a number is there.
    pub(crate) fn has(&self, number: u64) -> bool
        ensures { result ≡ has_number self.now number }
    {
        self.set.contains(&number)
    }

    /// A number comes to the others. Fails only if an allocation fails.
    pub(crate) fn add(&mut self, number: u64) -> Result<(), AllocError>
        ensures { OnOk result ((n : ℕ)
            → has_number self.new n ≡ (if n == number then true else has_number self.old n)) }
    {
        match self.set.insert(number) {
            Ok(_) => Ok(()),
            Err(_) => Err(AllocError),
        }
    }
}
