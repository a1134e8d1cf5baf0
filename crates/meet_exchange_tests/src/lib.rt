//! The exchanger, as a library: its calls row by row, its end, exchanges of threads, and refused memory.
#![tactic(auto)]

#[cfg(test)]
mod closing;
#[cfg(test)]
mod growth;
#[cfg(test)]
mod java_exchanger;
#[cfg(test)]
mod shared;
#[cfg(test)]
mod slots;
#[cfg(test)]
mod soak;
#[cfg(test)]
mod waits;
