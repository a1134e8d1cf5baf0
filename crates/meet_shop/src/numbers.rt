//! Numbers of chance, and what a seat asks by them.

use crate::asks::Ask;

/// Numbers of chance, the same in each run: each from the one before it, by shifts (Marsaglia 2003, "Xorshift RNGs").
#[derive(Drop)]
pub struct Chance {
    state: u64,
}

impl Chance {
    /// The numbers of this seed.
    pub fn new(seed: u64) -> Chance {
        Chance {
            state: seed.wrapping_mul(0x9E37_79B9_7F4A_7C15) | 1,
        }
    }

    /// The next number.
    fn next(&mut self) -> u64 {
        self.state ^= self.state << 13;
        self.state ^= self.state >> 7;
        self.state ^= self.state << 17;
        self.state
    }

    /// The next number below this limit; 0 where there is none.
    pub fn below(&mut self, limit: u64) -> u64 {
        self.next().checked_rem(limit).unwrap_or(0)
    }
}

/// What a seat asks whose ticket is open.
pub fn ending(chance: &mut Chance, seats: u64) -> Ask {
    match chance.below(9) {
        0 => Ask::Interrupt(chance.below(seats)),
        1 => Ask::Cancel,
        2 => Ask::Expire,
        _ => Ask::Follow,
    }
}

/// What a seat asks that has no ticket, with this item.
pub fn request(chance: &mut Chance, seats: u64, item: u64) -> Ask {
    match chance.below(9) {
        0 => Ask::Interrupt(chance.below(seats)),
        1 => Ask::Offer(item),
        2 => Ask::Poll,
        3 => Ask::Put(item),
        4 => Ask::Give(item),
        5 => Ask::Give(item),
        6 => Ask::Poll,
        _ => Ask::Take,
    }
}
