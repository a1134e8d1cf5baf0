//! Queues for threads where memory is refused: nothing is lost, and the call that is made again succeeds.
#![tactic(auto)]

#[cfg(test)]
mod growth;
