//! The outcome of a demo run.

use meet_history::Standing;

/// The outcome of a demo run.
#[derive(Clone, Copy, PartialEq, Eq, Debug)]
pub struct Drive {
    /// The items that the consumers counted.
    pub items: u64,
    /// The sum of these items.
    pub sum: u64,
    /// The pairs of a producer and a consumer in the log.
    pub pairs: u64,
    /// The records of the log.
    pub records: u64,
    /// The status of the queue's requests and items at its end.
    pub standing: Standing,
}
