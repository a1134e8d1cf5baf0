//! The arena and its creation.

ghost use Rattle.std.specs.Prelude.{◌≡◌, ◌≤◌, ◌<◌, [], None, IfOk, IfErr, vec_len};
ghost use Rattle.std.specs.Vec.{vec_capacity};
ghost use Rattle.meet_tickets.specs.Limits.{most_seats, last_round};
ghost use Rattle.meet_tickets.specs.Refusals.{IsWhy};
ghost use Rattle.meet_exchange.specs.Rule.{fresh_from};
ghost use Rattle.meet_exchange.specs.Seats.{ArenaView, AreNew, sizes_refusal};

use crate::plays::{Cut, Exchanges};
use crate::seats::{Inner, Seat};
use crate::steps::{Board, Token};
use crate::views::{Plan, View};
use crate::words::free_word;
use atomic_table::Table;
use meet_tickets::{MOST_SEATS, MOST_SLOTS, Marked, Refusal, SeatNo};
use std::alloc::Global;
use std::marker::Model;

/// An arena of slots, in which seats exchange items. The caller chooses the slot, and the calls are split: `offer`,
/// `collect` and `withdraw` don't wait, `exchange` does.
///
/// Java: `Exchanger`.
#[derive(Drop)]
pub struct Arena<T: Marked> {
    pub(crate) table: Table<Option<T>, View, Plan, Exchanges, Global>,
    pub(crate) slots: usize,
    pub(crate) seats: u64,
    pub(crate) start: u64,
}

impl<T: Marked> Model for Arena<T> {
    ghost use Rattle.std.specs.Prelude.{◌≡◌, ◌<◌, ◌≤◌};
    ghost use Rattle.meet_tickets.specs.Limits.{most_seats};
    ghost use Rattle.meet_exchange.specs.Seats.{ArenaView};

    ghost Value = { ArenaView };

    ghost view = { λ a. record { id = a.table.shared.table_id; slots = a.slots; seats = a.seats; start = a.start } };

    ghost invariant = { λ a. (a.table.shared.table_id.words ≡ a.slots) × (a.table.shared.key.slots ≡ a.slots)
        × (a.table.shared.key.seats ≡ a.seats) × (a.table.shared.key.start ≡ a.start)
        × (a.table.shared.table_id.slots ≡ a.slots) × (0 < a.slots) × (a.seats ≤ most_seats) };
}

/// Lets go of a list that has no seats.
fn discard<T>(list: Vec<Seat<T>>)
    requires { list.items ≡ [] }
{
    list.destroy_empty();
}

/// The seats of a new arena: each gets one of the maker's trails.
fn deal<T: Marked>(
    board: &Board<T>,
    alloc: Global,
    maker: &mut Token<T>,
    list: &mut Vec<Seat<T>>,
    seats: u64,
)
    requires place { maker.old.table_id ≡ board.now.table_id }
    requires words { 0 < board.now.table_id.words }
    requires views { maker.old.me ≡ (fresh_from 0 seats, []) }
    requires few { seats ≤ most_seats }
    requires empty { (list.old.items ≡ []) × (vec_len list.old ≡ 0) }
    requires room { seats ≤ vec_capacity list.old }
    ensures dealt { AreNew board.now.table_id 0 list.new.items }
    ensures count { vec_len list.new ≡ seats }
{
    for number in 0..seats {
        let token = board.split_seat::<Cut>(maker);
        list.push_reserved(Seat::new(Inner {
            number: SeatNo::new(number).unwrap(),
            list: Vec::new(alloc),
            token,
        }));
    }
}

impl<T: Marked> Arena<T> {
    /// Creates an arena of `slots` slots, 1 to 64, and its seats, 1 to 65,536, numbered from 0.
    ///
    /// # Errors
    /// - BadSizes, exactly if one of these is out of its limits.
    /// - Memory, if an allocation fails.
    ///
    /// # Example
    /// From `crates/examples/src/one_thread/swapped.rt`:
    ///
    ///     let (arena, mut seats) = Arena::<Parcel>::new(alloc, 1, 2)?; // one slot, two seats
    ///
    /// Java: `new Exchanger<>()`.
    pub fn new(alloc: Global, slots: usize, seats: u64) -> Result<(Self, Vec<Seat<T>>), Refusal>
        ensures seats { IfOk result (λ made. AreNew made.0.id 0 made.1.items) }
        ensures count { IfOk result (λ made. vec_len made.1 ≡ seats) }
        ensures sizes { IfOk result (λ made. (made.0.slots ≡ slots) × (made.0.seats ≡ seats)) }
        ensures start { IfOk result (λ made. made.0.start ≡ 0) }
        ensures fits { IfOk result (λ _. sizes_refusal slots seats ≡ None) }
        ensures why { IfErr result (λ why. IsWhy (sizes_refusal slots seats) why) }
    {
        Self::starting(alloc, slots, seats, 0)
    }

    /// Creates an arena as `new` does, with the rounds of each slot numbered from `round` on, 0 to 2^44 - 1. So it
    /// shows what a worn slot does.
    ///
    /// # Errors
    /// - BadSizes, exactly if the slots or the seats are out of their limits.
    /// - Memory, if an allocation fails.
    pub fn starting(
        alloc: Global,
        slots: usize,
        seats: u64,
        round: u64,
    ) -> Result<(Self, Vec<Seat<T>>), Refusal>
        requires round { round ≤ last_round }
        ensures seats { IfOk result (λ made. AreNew made.0.id 0 made.1.items) }
        ensures count { IfOk result (λ made. vec_len made.1 ≡ seats) }
        ensures sizes { IfOk result (λ made. (made.0.slots ≡ slots) × (made.0.seats ≡ seats)) }
        ensures start { IfOk result (λ made. made.0.start ≡ round) }
        ensures fits { IfOk result (λ _. sizes_refusal slots seats ≡ None) }
        ensures why { IfErr result (λ why. IsWhy (sizes_refusal slots seats) why) }
    {
        if slots == 0 || slots as u64 > MOST_SLOTS || seats == 0 || seats > MOST_SEATS {
            return Err(Refusal::BadSizes);
        }
        let Ok(mut list) = Vec::with_capacity(alloc, seats as usize) else {
            return Err(Refusal::Memory);
        };
        let mut words = Vec::new(alloc);
        if words.resize(slots, free_word(round)).is_err() {
            discard(list);
            return Err(Refusal::Memory);
        }
        let plan = Plan {
            slots,
            seats,
            start: round,
        };
        let Ok((table, mut maker)) = Table::vacant(alloc, words.as_slice(), slots, &plan) else {
            discard(list);
            return Err(Refusal::Memory);
        };
        deal(&table.shared, alloc, &mut maker, &mut list, seats);
        let arena = Arena {
            table,
            slots,
            seats,
            start: round,
        };
        Ok((arena, list))
    }

    /// Returns the word of a slot, of which nothing is promised. It is the sum of its code (0 to 4), of 8 times the
    /// seat that claimed the round, and of 2^19 times the round.
    pub fn word(&self, slot: usize) -> u64
        requires { slot < self.now.slots }
    {
        self.table.shared.peek(slot)
    }
}
