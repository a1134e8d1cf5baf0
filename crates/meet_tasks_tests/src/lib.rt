//! Tests of tasks, on public calls alone.
#![tactic(auto)]

#[cfg(test)]
mod calls;
#[cfg(test)]
mod chapters;
#[cfg(test)]
mod drains;
#[cfg(test)]
mod growth;
#[cfg(test)]
mod handoffs;
#[cfg(test)]
mod labels;
#[cfg(test)]
mod limits;
#[cfg(test)]
mod moments;
#[cfg(test)]
mod numbers;
#[cfg(test)]
mod offers;
#[cfg(test)]
mod probes;
#[cfg(test)]
mod stops;
