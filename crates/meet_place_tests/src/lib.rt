//! A place that threads share, over an object that is no queue: as a library.
#![tactic(auto)]

#[cfg(test)]
mod growth;
#[cfg(test)]
mod shared;
#[cfg(test)]
mod till;
