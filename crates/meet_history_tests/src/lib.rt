//! Checks, and the calls of one thread, all at once: as a library.
#![tactic(auto)]

#[cfg(test)]
mod calls;
#[cfg(test)]
mod ends;
#[cfg(test)]
mod growth;
#[cfg(test)]
mod pushes;
#[cfg(test)]
mod stories;
