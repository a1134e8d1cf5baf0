//! Parcels that pass through the queues, called directly and under a book: each comes to whom it should, and is known
//! by its serial number.
#![tactic(auto)]

#[cfg(test)]
mod answers;
#[cfg(test)]
mod books;
#[cfg(test)]
mod drains;
#[cfg(test)]
mod growth;
#[cfg(test)]
mod handoffs;
#[cfg(test)]
mod leavings;
#[cfg(test)]
mod locks;
#[cfg(test)]
mod parcels;
#[cfg(test)]
mod places;
#[cfg(test)]
mod probes;
#[cfg(test)]
mod sizes;
#[cfg(test)]
mod stories;
