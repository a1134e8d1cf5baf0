//! Tests of how pools behave, of one caller and of two, with boxed closures as jobs.
#![tactic(auto)]

#[cfg(test)]
mod callers;
#[cfg(test)]
mod chores;
#[cfg(test)]
mod ends;
#[cfg(test)]
mod gates;
#[cfg(test)]
mod handing;
#[cfg(test)]
mod meeting;
#[cfg(test)]
mod pools;
#[cfg(test)]
mod posts;
#[cfg(test)]
mod starts;
