//! A till, in which amounts are added up: an object with nothing of queues in it.

ghost use Rattle.std.specs.Prelude.{◌≡◌, ◌+◌, ◌<◌, ◌≤◌, ℕ, List, [], Some, None, ⊤, refl, nat_lt, length};
ghost use Rattle.std.specs.Prelude.{if◌then◌else◌, IfSome};
ghost use Rattle.std.specs.Vec.{vec_capacity};
ghost use Rattle.meet_tickets.specs.declared.records.Record.{Record as Entered};
ghost use Rattle.meet_place_tests.specs.declared.till.Amount.{Amount as Added};
ghost use Rattle.meet_tickets.specs.declared.refusals.Refusal.TheVariants.{NoSuchSeat, TicketsSpent};

use meet_book::{Leaves, Object, Same, Wakes};
use meet_tickets::{Record, Refusal, SeatNo, Ticket};
use std::alloc::Global;

/// The sum at which the seat 1 is woken.
pub const GOAL: u64 = 1_000;

/// An amount that was added.
#[derive(Clone, Copy, PartialEq, Debug)]
pub struct Amount {
    pub amount: u64,
}

impl Same for Amount {
    fn same(&self, other: &Amount) -> bool {
        self.amount == other.amount
    }
}

/// What a seat is told: the sum with its amount.
#[derive(Clone, Copy)]
pub struct Added {
    pub ticket: Ticket,
    pub sum: u64,
}

/// The till of so many seats, which holds 1,000,000 at most.
#[derive(Drop)]
pub struct Till {
    pub seats: u64,
    pub sum: u64,
    pub next: Ticket,
}

impl Till {
    /// An empty till.
    pub fn new(seats: u64) -> Option<Till>
        ensures { IfSome result (λ till. till.seats ≡ seats) }
    {
        Some(Till {
            seats,
            sum: 0,
            next: Ticket::new(1)?,
        })
    }
}

impl Object for Till {
    type Call = u64;

    type Answer = Added;

    type Deed = Amount;

    type Base = u64;

    ghost no_base = { 0 };

    ghost gone_of = { λ base. base };

    ghost leads = { λ base records till. ⊤ };

    ghost steps = { λ old seat amount added new. (new.sum ≡ old.sum + amount) × (added.sum ≡ new.sum)
        × (new.seats ≡ old.seats) };

    ghost record_of = { λ seat amount added.
        Some (record { seat = seat; ticket = added.ticket; deed = record { amount = amount } }) };

    ghost refusal_of = { λ till seat amount.
        if nat_lt seat till.seats
        then (if nat_lt 1000000 (till.sum + amount) then Some TicketsSpent else None)
        else Some NoSuchSeat };

    ghost owed_of = { λ till. 0 };

    ghost need_of = { λ amount. 1 };

    ghost seat_count_of = { λ till. till.seats };

    ghost room_of = { λ amount. 0 };

    ghost spare = { λ till. 0 };

    ghost with_room = { λ till room. till };

    ghost own_record = { λ seat amount added. refl };

    ghost same_place = { λ till. refl };

    ghost same_seats = { λ old seat amount added new step. step.2 };

    ghost roomy_seats = { λ till room. refl };

    ghost same_refusal = { λ till room seat amount. refl };

    ghost same_owed = { λ till room. refl };

    ghost same_leads = { λ till room base records leads. leads };

    ghost same_steps = { λ till room seat amount added new some steps. steps };

    ghost roomless = { λ amount none. refl };

    ghost fresh_owes = { λ till leads. refl };

    ghost none_gone = { refl };

    fn empty_base(_alloc: Global) -> u64 {
        0
    }

    fn gone(base: &u64) -> u64 {
        *base
    }

    fn admit(&self, seat: SeatNo, amount: &u64) -> Result<(), Refusal> {
        if seat.number() >= self.seats {
            Err(Refusal::NoSuchSeat)
        } else if self.sum > 1_000_000 || *amount > 1_000_000 - self.sum {
            Err(Refusal::TicketsSpent)
        } else {
            Ok(())
        }
    }

    fn need(_amount: &u64) -> u64 {
        1
    }

    fn room(_amount: &u64) -> u64 {
        0
    }

    fn owed(&self) -> u64 {
        0
    }

    fn reserve(&mut self, room: u64) -> Result<(), Refusal> {
        if room == 0 {
            Ok(())
        } else {
            Err(Refusal::Memory)
        }
    }

    fn step(&mut self, seat: SeatNo, amount: u64) -> (Added, Option<Record<Amount>>) {
        let ticket = self.next;
        self.next = Ticket::new(ticket.number() + 1).unwrap_or(ticket);
        self.sum += amount;
        let added = Added {
            ticket,
            sum: self.sum,
        };
        let record = Record {
            seat,
            ticket,
            deed: Amount { amount },
        };
        (added, Some(record))
    }
}

impl Wakes for Till {
    fn wakes(&self, added: &Added) -> Option<SeatNo> {
        if added.sum < GOAL {
            return None;
        }
        SeatNo::new(1)
    }
}

impl Leaves for Till {
    type Left = u64;

    ghost left_count = { λ till. 1 };

    ghost are_left = { λ base records left. length left ≡ 1 };

    fn left(&self) -> u64 {
        1
    }

    fn leave(self, empty: Vec<u64>) -> Vec<u64>
        requires empty { empty.items ≡ [] }
        requires room { 1 ≤ vec_capacity empty }
        ensures { (base : ℕ) (records : List (Entered Added)) → ⊤ → length result.items ≡ 1 }
    {
        let mut all = empty;
        all.push_reserved(self.sum);
        all
    }
}
