//! Receipts: what a book returns for a record.

ghost use Rattle.std.specs.Prelude.{◌≡◌};

use meet_tickets::Record;
use std::marker::Model;

/// A receipt (a certificate) for one record of a book. Only a book makes one, and none is made from another.
#[derive(Debug, Drop)]
pub struct Receipt<D: Copy> {
    place: u64,
    entry: Record<D>,
}

impl<D: Copy> Model for Receipt<D> {
    ghost use Rattle.meet_book.specs.Received.{Received};

    ghost Value = { Received D };

    ghost view = { λ receipt. record { place = receipt.place; entry = receipt.entry } };
}

impl<D: Copy> Receipt<D> {
    /// The receipt for the record of this number.
    pub(crate) fn new(place: u64, entry: Record<D>) -> Self
        ensures { result ≡ record { place = place; entry = entry } }
    {
        Receipt { place, entry }
    }

    /// Returns the record's number in its book, from 1.
    pub fn place(&self) -> u64
        ensures { result ≡ self.now.place }
    {
        self.place
    }

    /// Returns the record.
    ///
    /// # Example
    /// From `crates/examples/src/one_thread/recorded.rt`:
    ///
    ///     let entry = receipt.entry(); // the record; receipt.place() is its number
    pub fn entry(&self) -> Record<D>
        ensures { result ≡ self.now.entry }
    {
        self.entry
    }
}
