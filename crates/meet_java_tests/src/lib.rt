//! What the documentation of Java's classes says of each call, at the queues for threads: split calls, and whole ones
//! of one thread and of two.
#![tactic(auto)]

#[cfg(test)]
mod java_synchronous;
#[cfg(test)]
mod java_synchronous_waits;
#[cfg(test)]
mod java_transfer;
#[cfg(test)]
mod java_transfer_waits;
#[cfg(test)]
mod whole;
