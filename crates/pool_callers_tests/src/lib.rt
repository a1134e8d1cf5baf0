//! Tests of pools and their callers, on public calls alone.
#![tactic(auto)]

#[cfg(test)]
mod ends;
#[cfg(test)]
mod growth;
#[cfg(test)]
mod jobs;
#[cfg(test)]
mod keeping;
#[cfg(test)]
mod sizes;
#[cfg(test)]
mod squares;
#[cfg(test)]
mod submits;
