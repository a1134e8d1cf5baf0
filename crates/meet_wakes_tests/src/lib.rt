//! Who is woken at a queue for threads, by calls of one thread and of many.
#![tactic(auto)]

#[cfg(test)]
mod chance;
#[cfg(test)]
mod flags;
#[cfg(test)]
mod parks;
#[cfg(test)]
mod wakes;
#[cfg(test)]
mod wakes_of_chance;
