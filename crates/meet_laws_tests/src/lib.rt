//! Fates, tallies and what is left of worked histories.
#![tactic(auto)]

#[cfg(test)]
mod growth;
#[cfg(test)]
mod rows;
