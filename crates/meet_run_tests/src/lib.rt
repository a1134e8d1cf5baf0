//! Runs on readers and writers that misbehave, how they end, and what is read and written piece by piece.
#![tactic(auto)]

#[cfg(test)]
mod at_size;
#[cfg(test)]
mod chains;
#[cfg(test)]
mod checkpoints;
#[cfg(test)]
mod doubles;
#[cfg(test)]
mod ends;
#[cfg(test)]
mod erases;
#[cfg(test)]
mod growth;
#[cfg(test)]
mod lines;
#[cfg(test)]
mod pieces;
#[cfg(test)]
mod reads;
#[cfg(test)]
mod tasks;
#[cfg(test)]
mod writes;
