//! The exchanger, its creation and its end.

ghost use Rattle.std.specs.Prelude.{◌≡◌, ◌≤◌, ◌<◌, ◌↔◌, ◌⊎◌, ℕ, None, map, length, IfOk, IfErr, vec_len};
ghost use Rattle.meet_tickets.specs.declared.refusals.Refusal.TheVariants.{Memory, SeatMissing};
ghost use Rattle.meet_tickets.specs.Refusals.{IsWhy};
ghost use Rattle.meet_exchange.specs.Seats.{AreNew, sizes_refusal};
ghost use Rattle.meet_exchange.specs.Rounds.{IsHistory, in_slot, parts_of};
ghost use Rattle.meet_exchange.specs.Closed.{AreOf, AreAt, HasList, IsLeft, back_lists, entry_at};

use crate::waiters::Waiters;
use meet_exchange::{Arena, Back, CloseFault, Closed, Seat};
use meet_tickets::{MOST_SEATS, Marked, Refusal};
use std::alloc::Global;
use std::fmt;
use std::fmt::{Debug, Display, Formatter, Write};
use std::marker::Model;

/// An exchanger: two seats that come to it exchange their items. It has a seat for each thread, and a list of what each
/// seat did.
///
/// Java: `Exchanger` (JDK 21).
#[derive(Drop)]
pub struct Exchanger<T: Marked> {
    pub(crate) arena: Arena<T>,
    pub(crate) waiters: Waiters,
    /// How many slots the arena has; each eighth is used.
    pub(crate) slots: usize,
    /// How many seats it has.
    seats: u64,
}

impl<T: Marked> Model for Exchanger<T> {
    ghost use Rattle.std.specs.Prelude.{◌≡◌, ◌<◌};
    ghost use Rattle.meet_exchange.specs.Seats.{ArenaView};

    ghost Value = { ArenaView };

    ghost view = { λ e. e.arena };

    ghost invariant = { λ e. (e.slots ≡ e.arena.slots) × (0 < e.slots)
        × (e.seats ≡ e.arena.seats) };
}

/// How many slots are used at most.
const MOST_USED: u64 = 8;

/// How far apart the slots are that are used. The words of eight fill a line of the processor's memory, so no two of
/// those used share one.
pub(crate) const APART: usize = 8;

/// Returns how many slots the arena of an exchanger with this number of seats has. One for each pair is used, and one
/// at least: the slot 0, and from there each eighth.
fn slots_for(seats: u64) -> usize
    ensures { 0 < result }
{
    let others = (seats / 2).clamp(1, MOST_USED) - 1;
    others as usize * APART + 1
}

impl<T: Marked> Exchanger<T> {
    /// Creates an exchanger and its seats, which are numbered from 0.
    ///
    /// # Errors
    /// - BadSizes, exactly if `seats` is 0 or more than 65,536.
    /// - Memory, if an allocation fails.
    ///
    /// # Example
    /// From `crates/bench/src/exchanges.rt`:
    ///
    ///     let (exchanger, mut seats) = Exchanger::<u64>::new(alloc, 1)?;
    ///     let seat = seats.pop().ok_or(Refusal::SeatMissing)?;
    ///
    /// Java: `new Exchanger<>()`.
    pub fn new(alloc: Global, seats: u64) -> Result<(Self, Vec<Seat<T>>), Refusal>
        ensures seats { IfOk result (λ made. AreNew made.0.id 0 made.1.items) }
        ensures count { IfOk result (λ made. vec_len made.1 ≡ seats) }
        ensures size { IfOk result (λ made. made.0.seats ≡ seats) }
        ensures start { IfOk result (λ made. made.0.start ≡ 0) }
        ensures fits { IfOk result (λ _. sizes_refusal 1 seats ≡ None) }
        ensures why { IfErr result (λ why. IsWhy (sizes_refusal 1 seats) why) }
    {
        if seats == 0 || seats > MOST_SEATS {
            return Err(Refusal::BadSizes);
        }
        let waiters = Waiters::new(alloc, seats)?;
        let slots = slots_for(seats);
        let Ok((arena, list)) = Arena::new(alloc, slots, seats) else {
            return Err(Refusal::Memory); // these sizes fit
        };
        Ok((
            Exchanger {
                arena,
                waiters,
                slots,
                seats,
            },
            list,
        ))
    }

    /// Returns the number of its seats.
    pub fn seats(&self) -> u64
        ensures { result ≡ self.now.seats }
    {
        self.seats
    }

    /// Closes the exchanger with all its seats, in any order. It returns the rounds of each slot, of which each eighth is
    /// used, what each seat did, and the items that no seat has.
    ///
    /// # Errors
    /// The exchanger and the seats are returned, and `close` can be called again.
    /// - SeatMissing, exactly if fewer seats are given back than were made.
    /// - Memory, if an allocation fails.
    pub fn close(self, alloc: Global, seats: Vec<Back<T>>) -> Result<Closed<T>, ExchangerFault<T>>
        requires place { AreOf self.id seats.items }
        ensures slots { IfOk result (λ c. length c.slots.items ≡ self.slots) }
        ensures history { IfOk result (λ c. (k : ℕ)
            → IsHistory self.seats (entry_at (map (λ rounds. rounds.items) c.slots.items) k)) }
        ensures count { IfOk result (λ c. length c.lists.items ≡ self.seats) }
        ensures lists { IfOk result (λ c. (x k : ℕ) → x < self.seats
            → in_slot k (entry_at (map (λ list. list.items) c.lists.items) x)
            ≡ parts_of x k self.start (entry_at (map (λ rounds. rounds.items) c.slots.items) k)) }
        ensures own { IfOk result (λ c. AreAt (map (λ list. list.items) c.lists.items) (back_lists seats.items)) }
        ensures each { IfOk result (λ _. (x : ℕ) → x < self.seats → HasList x (back_lists seats.items)) }
        ensures left { IfOk result (λ c. IsLeft T.mark_of self.start
            (entry_at (map (λ rounds. rounds.items) c.slots.items)) self.slots c.left.items) }
        ensures missing { IfErr result (λ fault. fault.why ≡ SeatMissing ↔ (vec_len seats < self.seats)) }
        ensures memory { IfErr result (λ fault. (fault.why ≡ SeatMissing) ⊎ (fault.why ≡ Memory)) }
        ensures all { IfOk result (λ _. self.seats ≤ vec_len seats) }
        ensures back { IfErr result (λ fault. (fault.exchanger ≡ self) × (fault.seats ≡ seats)) }
    {
        let Exchanger {
            arena,
            waiters,
            slots,
            seats: count,
        } = self;
        match arena.close(alloc, seats) {
            Ok(closed) => Ok(closed),
            Err(fault) => {
                let CloseFault { why, arena, seats } = fault;
                Err(ExchangerFault {
                    why,
                    exchanger: Exchanger {
                        arena,
                        waiters,
                        slots,
                        seats: count,
                    },
                    seats,
                })
            }
        }
    }
}

/// The error of an exchanger that wasn't closed: SeatMissing or Memory. The exchanger and the seats are returned. It is
/// no error type: a `?` returns it whole or doesn't compile.
#[derive(Drop)]
pub struct ExchangerFault<T: Marked> {
    /// The reason.
    pub why: Refusal,
    /// The exchanger, as it was.
    pub exchanger: Exchanger<T>,
    /// The seats that were given back.
    pub seats: Vec<Back<T>>,
}

/// The name of the reason.
impl<T: Marked> Display for ExchangerFault<T> {
    ghost use Rattle.std.specs.Prelude.{Some};
    ghost use Rattle.meet_tickets.specs.Refusals.{name_of};

    ghost output = { λ fault. Some (name_of fault.why) };

    fn fmt<W: Write>(&self, f: &mut Formatter<W>) -> fmt::Result {
        f.write_str(self.why.name())
    }
}

/// The reason alone.
impl<T: Marked> Debug for ExchangerFault<T> {
    fn fmt<W: Write>(&self, f: &mut Formatter<W>) -> fmt::Result {
        write!(f, "ExchangerFault({})", self.why)
    }
}

impl<T: Marked + Drop> ExchangerFault<T> {
    /// Returns the reason, and drops the exchanger and the seats.
    pub fn into_why(self) -> Refusal
        ensures { result ≡ self.why }
    {
        self.why
    }
}
