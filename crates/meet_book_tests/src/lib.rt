//! The book of a place that is no queue: as a library.
#![tactic(auto)]

#[cfg(test)]
mod books;
#[cfg(test)]
mod cell;
#[cfg(test)]
mod comparing;
