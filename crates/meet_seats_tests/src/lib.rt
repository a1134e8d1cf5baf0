//! Tests of pools of seats, on public calls alone.
#![tactic(auto)]

#[cfg(test)]
mod at_size;
#[cfg(test)]
mod hundred;
#[cfg(test)]
mod one_thread;
