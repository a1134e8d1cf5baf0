//! The judge on readers and writers that misbehave.
#![tactic(auto)]

#[cfg(test)]
mod doubles;
#[cfg(test)]
mod faults;
