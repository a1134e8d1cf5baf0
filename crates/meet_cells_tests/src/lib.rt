//! Bells and gates, as a library.
#![tactic(auto)]

#[cfg(test)]
mod bells;
#[cfg(test)]
mod gates;
#[cfg(test)]
mod growth;
