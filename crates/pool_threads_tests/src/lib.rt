//! Pools of threads, as a library: where memory is short, where a seat is missing, and
//! where it lives long.
#![tactic(auto)]

#[cfg(test)]
mod forgetting;
#[cfg(test)]
mod growth;
#[cfg(test)]
mod missing;
#[cfg(test)]
mod pools;
