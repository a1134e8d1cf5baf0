//! Lines, tables of seats and their meetings, called from outside: items that a test knows again, room at size, memory
//! that is refused, and what is left.
#![tactic(auto)]

#[cfg(test)]
mod growth;
#[cfg(test)]
mod leavings;
#[cfg(test)]
mod lines;
#[cfg(test)]
mod looks;
#[cfg(test)]
mod parcels;
#[cfg(test)]
mod sealed;
#[cfg(test)]
mod seats;
#[cfg(test)]
mod tables;
#[cfg(test)]
mod transfers;
