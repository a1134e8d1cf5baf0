//! Drives, as a library: what they count, and how a refusal ends them.
#![tactic(auto)]

#[cfg(test)]
mod drives;
