//! A cell of tokens for two seats: a place with nothing of queues in it.

ghost use Rattle.std.specs.Prelude.{◌≡◌, ◌+◌, ◌<◌, ◌≤◌, ◌⊎◌, false, Some, None, refl, length, nat_lt, nat_eq};
ghost use Rattle.std.specs.Prelude.{option_map, option_to_list, IsSome, if◌then◌else◌};
ghost use Rattle.std.specs.Option.{option_map_or};
ghost use Rattle.std.proofs.Common.{rules, arith};
ghost use Rattle.meet_book_tests.specs.declared.cell.Call.TheVariants.{Put, Take, End};
ghost use Rattle.meet_tickets.specs.declared.refusals.Refusal.TheVariants.{NoSuchSeat, SeatOpen, TicketsSpent};

use meet_book::{Bases, Drains, Object};
use meet_tickets::{Record, Refusal, SeatNo, Ticket};
use std::alloc::Global;
use std::process::Abort;

/// What a seat asks.
#[derive(Clone, Copy, PartialEq)]
pub enum Call {
    /// Puts so many tokens in.
    Put(u64),
    /// Takes a token. Where none is there the seat waits for one, unless the other seat does.
    Take,
    /// Ends the seat's wait, with a token if one has come; without, nothing is written. Who doesn't wait does nothing.
    End,
}

/// What a record says.
#[derive(Clone, Copy, PartialEq, Debug)]
pub enum Deed {
    Put(u64),
    Took,
    Waits,
    Missed,
    Ended,
}

/// What a call did, by its ticket.
#[derive(Clone, Copy)]
pub struct Made {
    pub ticket: Ticket,
    pub deed: Deed,
}

/// The seat that waits, and its ticket.
#[derive(Clone, Copy)]
pub struct Wait {
    pub seat: SeatNo,
    pub ticket: Ticket,
}

/// What stands for the records that were folded away: how many these are, and who waited then.
#[derive(Clone, Copy)]
pub struct Past {
    pub gone: u64,
    pub wait: Option<Wait>,
}

/// The cell. It never has room for more than so many puts, as if memory ended there; and if that is none, it has no
/// memory for a base either.
#[derive(Drop)]
pub struct Cell {
    pub tokens: u64,
    pub wait: Option<Wait>,
    pub next: Ticket,
    pub unspent: u64,
    pub room: u64,
    pub most: u64,
}

impl Cell {
    /// An empty cell with so many tickets, that makes room for so many puts at most.
    pub fn new(rt: &impl Abort, tickets: u64, most: u64) -> Cell
        ensures { result.wait ≡ None }
    {
        Cell {
            tokens: 0,
            wait: None,
            next: Ticket::new(1).expect(rt, "no such ticket number"),
            unspent: tickets,
            room: 0,
            most,
        }
    }

    /// Whether this seat waits.
    fn waits(&self, seat: SeatNo) -> bool
        ensures { result ≡ option_map_or (λ wait. nat_eq wait.seat seat) self.now.wait false }
    {
        match &self.wait {
            Some(wait) => wait.seat == seat,
            None => false,
        }
    }

    /// The next ticket, which is used up.
    fn draw(&mut self) -> Ticket
        requires { 0 < self.old.unspent }
        ensures unspent { self.new.unspent + 1 ≡ self.old.unspent }
        ensures room { self.new.room ≡ self.old.room }
        ensures tokens { self.new.tokens ≡ self.old.tokens }
        ensures wait { self.new.wait ≡ self.old.wait }
    {
        let ticket = self.next;
        self.next = Ticket::new(ticket.number() + 1).unwrap_or(ticket);
        self.unspent -= 1;
        ticket
    }

    /// Puts tokens in, up to the greatest number, which uses up the room of a put.
    fn put(&mut self, tokens: u64) -> Made
        requires ticket { 0 < self.old.unspent }
        requires room { 0 < self.old.room }
        ensures room { self.new.room + 1 ≡ self.old.room }
        ensures wait { self.new.wait ≡ self.old.wait }
    {
        let ticket = self.draw();
        self.room -= 1;
        self.tokens = self.tokens.saturating_add(tokens);
        Made {
            ticket,
            deed: Deed::Put(tokens),
        }
    }

    /// Takes a token, or waits for one, or misses it.
    fn take(&mut self, seat: SeatNo) -> Made
        requires { 0 < self.old.unspent }
        ensures unspent { self.new.unspent + 1 ≡ self.old.unspent }
        ensures room { self.new.room ≡ self.old.room }
        ensures took { 0 < self.old.tokens → (self.new.tokens + 1 ≡ self.old.tokens) × (self.new.wait ≡ self.old.wait) }
        ensures wait { (self.new.wait ≡ self.old.wait) ⊎ (self.old.wait ≡ None) }
    {
        let ticket = self.draw();
        if self.tokens > 0 {
            self.tokens -= 1;
            return Made {
                ticket,
                deed: Deed::Took,
            };
        }
        match self.wait {
            Some(_) => Made {
                ticket,
                deed: Deed::Missed,
            },
            None => {
                self.wait = Some(Wait { seat, ticket });
                Made {
                    ticket,
                    deed: Deed::Waits,
                }
            }
        }
    }

    /// Ends a wait, with a token if one is there.
    fn end(&mut self, seat: SeatNo) -> Option<Made>
        ensures room { self.new.room ≡ self.old.room }
        ensures owed { length (option_to_list result) + length (option_to_list self.new.wait) ≤ length
            (option_to_list self.old.wait) }
    {
        if !self.waits(seat) {
            return None;
        }
        let wait = self.wait.take()?;
        if self.tokens == 0 {
            return None;
        }
        self.tokens -= 1;
        Some(Made {
            ticket: wait.ticket,
            deed: Deed::Ended,
        })
    }
}

/// What a seat did, and its record, if it did anything.
fn written(seat: SeatNo, made: Option<Made>) -> (Option<Made>, Option<Record<Deed>>)
    ensures made { result.0 ≡ made }
    ensures record { result.1 ≡ option_map (λ m. record { seat = seat; ticket = m.ticket; deed = m.deed }) made }
    ensures count { length (option_to_list result.1) ≡ length (option_to_list made) }
{
    match made {
        None => (None, None),
        Some(made) => {
            let record = Record {
                seat,
                ticket: made.ticket,
                deed: made.deed,
            };
            (Some(made), Some(record))
        }
    }
}

impl Object for Cell {
    type Call = Call;

    type Answer = Option<Made>;

    type Deed = Deed;

    type Base = Past;

    ghost no_base = { record { gone = 0; wait = None } };

    ghost gone_of = { λ base. base.gone };

    /// Where a seat waits, the base or a record says so.
    ghost leads = { λ base records cell. length (option_to_list cell.wait) ≤ length (option_to_list base.wait) +
        length records };

    /// What a drain has to know of a step: what Take does where a token is there.
    ghost steps = { λ old seat call made new. call ≡ Take → 0 < old.tokens
        → IsSome made × (new.tokens + 1 ≡ old.tokens) × (new.unspent + 1 ≡ old.unspent) × (new.wait ≡ old.wait) };

    ghost record_of = { λ seat call made. option_map
        (λ m. record { seat = seat; ticket = m.ticket; deed = m.deed }) made };

    ghost refusal_of = { λ cell seat call.
        if nat_lt seat 2
        then (elim call [
          | End ↦ None
          | _ ↦
              (if option_map_or (λ wait. nat_eq wait.seat seat) cell.wait false then Some SeatOpen
              else (if nat_lt 0 cell.unspent then None else Some TicketsSpent))
        ])
        else Some NoSuchSeat };

    ghost owed_of = { λ cell. length (option_to_list cell.wait) };

    ghost need_of = { elim [ Put tokens ↦ 1 | Take ↦ 2 | End ↦ 0 ] };

    ghost seat_count_of = { λ cell. 2 };

    ghost room_of = { elim [ Put tokens ↦ 1 | Take ↦ 0 | End ↦ 0 ] };

    ghost spare = { λ cell. cell.room };

    ghost with_room = { λ cell room. record cell { room = room } };

    ghost own_record = { λ seat call. elim [ None ↦ tt | Some made ↦ refl ] };

    ghost same_place = { λ cell. refl };

    ghost same_seats = { λ old seat call made new step. refl };

    ghost roomy_seats = { λ cell room. refl };

    ghost same_refusal = { λ cell room seat call. refl };

    ghost same_owed = { λ cell room. refl };

    ghost same_leads = { λ cell room base records leads. leads };

    ghost same_steps = { λ cell room seat call made new some steps. steps };

    ghost roomless = { elim [
      | Put tokens ↦ λ none. absurd (Prim.omega (arith, none))
      | Take ↦ λ none.
          refl
      | End ↦ λ none. refl
    ] };

    ghost fresh_owes = { Prim.search rules };

    ghost none_gone = { refl };

    fn empty_base(_alloc: Global) -> Past {
        Past {
            gone: 0,
            wait: None,
        }
    }

    fn gone(base: &Past) -> u64 {
        base.gone
    }

    fn admit(&self, seat: SeatNo, call: &Call) -> Result<(), Refusal> {
        if seat.number() >= 2 {
            return Err(Refusal::NoSuchSeat);
        }
        match call {
            Call::End => Ok(()),
            Call::Put(_) | Call::Take => {
                if self.waits(seat) {
                    Err(Refusal::SeatOpen)
                } else if self.unspent == 0 {
                    Err(Refusal::TicketsSpent)
                } else {
                    Ok(())
                }
            }
        }
    }

    fn need(call: &Call) -> u64 {
        match call {
            Call::Put(_) => 1,
            Call::Take => 2,
            Call::End => 0,
        }
    }

    fn room(call: &Call) -> u64 {
        match call {
            Call::Put(_) => 1,
            Call::Take | Call::End => 0,
        }
    }

    fn owed(&self) -> u64 {
        match self.wait {
            Some(_) => 1,
            None => 0,
        }
    }

    fn reserve(&mut self, room: u64) -> Result<(), Refusal> {
        if room <= self.room {
            return Ok(());
        }
        if room > self.most {
            return Err(Refusal::Memory);
        }
        self.room = room;
        Ok(())
    }

    fn step(&mut self, seat: SeatNo, call: Call) -> (Option<Made>, Option<Record<Deed>>) {
        match call {
            Call::Put(tokens) => written(seat, Some(self.put(tokens))),
            Call::Take => written(seat, Some(self.take(seat))),
            Call::End => written(seat, self.end(seat)),
        }
    }
}

impl Bases for Cell {
    ghost is_base = { λ cell gone base. (base.gone ≡ gone) × (base.wait ≡ cell.wait) };

    fn base(&self, _alloc: Global, gone: u64) -> Result<Past, Refusal> {
        if self.most == 0 {
            return Err(Refusal::Memory);
        }
        Ok(Past {
            gone,
            wait: self.wait,
        })
    }

    fn copy_base(_alloc: Global, base: &Past) -> Result<Past, Refusal> {
        Ok(*base)
    }
}

impl Drains for Cell {
    ghost poll = { Take };

    ghost available_of = { λ cell. cell.tokens };

    ghost unspent_of = { λ cell. cell.unspent };

    ghost poll_fits = { refl };

    fn available(&self) -> u64 {
        self.tokens
    }

    fn tickets_left(&self) -> u64 {
        self.unspent
    }

    fn admit_poll(&self, seat: SeatNo) -> Result<(), Refusal> {
        Object::admit(self, seat, &Call::Take)
    }

    fn poll_call(&self) -> Call {
        Call::Take
    }

    fn met(&self) -> Option<SeatNo> {
        None
    }
}
