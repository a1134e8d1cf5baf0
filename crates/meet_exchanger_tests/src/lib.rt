//! The exchanger whose threads park: what Java's documentation says of `Exchanger`, worked rows, and exchanges at size.
#![tactic(auto)]

#[cfg(test)]
mod at_size;
#[cfg(test)]
mod java_exchanger;
#[cfg(test)]
mod rows;
#[cfg(test)]
mod runs;
#[cfg(test)]
mod shared;
