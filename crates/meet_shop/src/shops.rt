//! The queue of tests and soaks: numbers go through it, and its order is chosen by each of them.

use meet_chosen::ChosenQueue;
use std::mem::ManuallyDrop;

/// A queue of numbers, of any order.
pub type Shop<G, N> = ChosenQueue<u64, G, N>;

/// Keeps a value from being let go: what stands on a ledger of a generic function gets no proof of that.
pub fn keep<X: Drop>(value: X) {
    let _kept = ManuallyDrop::new(value);
}
