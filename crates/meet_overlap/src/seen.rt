//! The worlds that were seen to lead nowhere.

ghost use Rattle.std.specs.Prelude.{◌≡◌, ◌++◌, ◌∷◌, [], IfOk, IsTrue, OnOk};
ghost use Rattle.meet_overlap.specs.Known.{HasAlike};
ghost use Rattle.meet_overlap.specs.Places.{world_of};

use crate::alike::alike;
use crate::calls::Stage;
use crate::world::Reached;
use meet_tickets::{Entry, Hold};
use std::alloc::{AllocError, Global};

/// How many hashes are told apart: our choice, of which nothing is promised.
const HASHES: usize = 65_536;

/// Worlds that were seen, found by their hash.
#[derive(Drop)]
pub(crate) struct Seen {
    pub(crate) worlds: Vec<Reached>,
    /// For each hash, one more than the number of the last world that has it, or 0.
    last: Vec<usize>,
    /// For each world, one more than the number of the one before it that has its hash, or 0.
    before: Vec<usize>,
}

/// A hash and one number more.
pub(crate) fn mixed(hash: u64, number: u64) -> u64 {
    (hash ^ number)
        .wrapping_mul(0x9E37_79B9_7F4A_7C15)
        .rotate_left(29)
}

/// The hash of stages.
fn hash_of_stages(from: u64, stages: &[Stage]) -> u64 {
    let mut hash = from;
    for stage in stages {
        hash = match stage {
            Stage::Ahead => mixed(hash, 1),
            Stage::Open(ticket) => mixed(mixed(hash, 2), ticket.number()),
            Stage::Over => mixed(hash, 3),
        };
    }
    hash
}

/// The hash of a line.
fn hash_of_line(from: u64, line: &[Entry<u64>]) -> u64 {
    let mut hash = from;
    for entry in line {
        hash = mixed(hash, entry.ticket.number());
    }
    hash
}

/// The hash of what seats hold.
fn hash_of_holds(from: u64, holds: &[Hold<u64>]) -> u64 {
    let mut hash = from;
    for hold in holds {
        hash = match hold {
            Hold::Free => mixed(hash, 1),
            Hold::Waiting(ticket) => mixed(mixed(hash, 2), ticket.number()),
            Hold::Handed(_, with, _) => mixed(mixed(hash, 3), with.number()),
            Hold::Served(_, with, _) => mixed(mixed(hash, 4), with.number()),
            Hold::Cut(ticket, _) => mixed(mixed(hash, 5), ticket.number()),
        };
    }
    hash
}

/// The hash of a world: worlds that are alike have the same.
fn hash_of(reached: &Reached) -> usize {
    let hash = mixed(reached.time, reached.window.first as u64);
    let hash = hash_of_stages(hash, &reached.window.stages);
    let hash = hash_of_line(hash, reached.place.line.as_slice());
    let hash = hash_of_holds(hash, &reached.place.holds);
    (hash >> 40) as usize % HASHES
}

/// One that stands in a list, or 0.
fn number_at(list: &[usize], index: usize) -> usize {
    if index < list.len() { list[index] } else { 0 }
}

impl Seen {
    /// Nothing was seen yet. Fails only if an allocation fails.
    pub(crate) fn nothing(alloc: Global) -> Result<Seen, AllocError>
        ensures { IfOk result (λ seen. seen.worlds.items ≡ []) }
    {
        let mut last = Vec::new(alloc);
        for _ in 0..HASHES {
            last.push(0)?;
        }
        Ok(Seen {
            worlds: Vec::new(alloc),
            last,
            before: Vec::new(alloc),
        })
    }

    /// Whether one that was seen is the same as this world.
    pub(crate) fn has(&self, reached: &Reached) -> bool
        ensures { IsTrue result → HasAlike self.now.worlds.items (world_of reached.now) }
    {
        let mut next = number_at(&self.last, hash_of(reached));
        for _ in 0..self.worlds.len() {
            if next == 0 || self.worlds.len() < next {
                return false;
            }
            if alike(&self.worlds[next - 1], reached) {
                return true;
            }
            next = number_at(&self.before, next - 1);
        }
        false
    }

    /// Puts one more there. Fails only if an allocation fails.
    pub(crate) fn note(&mut self, reached: Reached) -> Result<(), AllocError>
        ensures { OnOk result (self.new.worlds.items ≡ self.old.worlds.items ++ reached ∷ []) }
    {
        let hash = hash_of(&reached);
        self.before.push(number_at(&self.last, hash))?;
        self.worlds.push(reached)?;
        let count = self.worlds.len();
        if hash < self.last.len() {
            self.last[hash] = count;
        }
        Ok(())
    }
}
