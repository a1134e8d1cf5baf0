//! The split requests of a queue.

ghost use Rattle.std.specs.Prelude.{◌≡◌, ◌<◌, None, IfOk, IfErr};
ghost use Rattle.meet_core.specs.QueueSteps.{item_in};
ghost use Rattle.meet_sync.specs.Asking.{call_of, item_of, RefusedAs, AskedAs, InterruptedAs, AnsweredBy, IsToRequest};
ghost use Rattle.meet_sync.specs.Told.{IsRequestWhy, IsInterruptWhy, RefusedSince};

use crate::asked::{Answer, Asked, Interrupted, Request, SeatRefused};
use crate::queue::Queue;
use meet_core::{Gave, Offered, Polled, Put, QueueAnswer, QueueCall, QueuePlace, Took};
use meet_place::{Gate, Ledgers, Pending, Seat};
use meet_tickets::{Deed, Refusal, Refused, SeatNo};
use std::sync::Wait;

/// What a request was answered, to a seat that has room for its ending's receipt. The mark is that of its item.
fn asked_of<T, N: Ledgers>(
    seat: Seat<Deed, N>,
    mark: Option<u64>,
    answer: QueueAnswer<T>,
) -> Asked<T, N>
    requires room { 0 < seat.room }
    requires request { IsToRequest answer }
    ensures { AnsweredBy seat mark answer result }
{
    match answer {
        QueueAnswer::Put(put) => match put {
            Put::Kept(_) => Asked::Settled(seat, Answer::Kept),
            Put::Meets(_, with) => Asked::Settled(seat, Answer::Gave(with)),
            Put::Fails(_, item) => Asked::Settled(seat, Answer::Failed(Some(item))),
        },
        QueueAnswer::Gave(gave) => match gave {
            Gave::Waits(ticket) => Asked::Parked(Pending::new(seat, ticket, mark)),
            Gave::Meets(_, with) => Asked::Settled(seat, Answer::Gave(with)),
            Gave::EntryInterrupted(_, item) => {
                Asked::Settled(seat, Answer::EntryInterrupted(Some(item)))
            }
        },
        QueueAnswer::Offered(offered) => match offered {
            Offered::Meets(_, with) => Asked::Settled(seat, Answer::Gave(with)),
            Offered::Fails(_, item) => Asked::Settled(seat, Answer::Failed(Some(item))),
        },
        QueueAnswer::Took(took) => match took {
            Took::Waits(ticket) => Asked::Parked(Pending::new(seat, ticket, mark)),
            Took::Meets(_, with, item) => Asked::Settled(seat, Answer::Got(with, item)),
            Took::EntryInterrupted(_) => Asked::Settled(seat, Answer::EntryInterrupted(None)),
        },
        QueueAnswer::Polled(polled) => match polled {
            Polled::Meets(_, with, item) => Asked::Settled(seat, Answer::Got(with, item)),
            Polled::Fails(_) => Asked::Settled(seat, Answer::Failed(None)),
        },
        _ => unreachable!(),
    }
}

/// A refusal of a call, with its seat and the item that it brought.
fn refused_with<T, N: Ledgers>(
    seat: Seat<Deed, N>,
    refused: Refused<QueueCall<T>>,
) -> SeatRefused<T, N>
    ensures why { result.why ≡ refused.why }
    ensures seat { result.seat ≡ seat }
    ensures item { result.item ≡ item_in refused.back }
{
    let Refused { why, back } = refused;
    SeatRefused {
        why,
        seat,
        item: back.into_item(),
    }
}

impl<O: QueuePlace, G: Gate, N: Ledgers> Queue<O, G, N> {
    /// Makes a request of a seat: it is settled at once, or it waits with its ticket pending (open). The call waits
    /// only for the lock, never for a counterpart. A pending request is completed by a follow-up, or taken back; its
    /// completion doesn't allocate. A seat or a pending request that is dropped is missing at `close`.
    ///
    /// # Errors
    /// Seat and item are returned, and nothing is logged. The first that applies:
    /// - Memory, if the seat's list can't grow.
    /// - SeatOpen, if the seat has a pending request (an open ticket).
    /// - TicketsSpent, if all 2^63 - 1 request ids (tickets) are used.
    /// - HistoryFull, if two records, for the request and its completion, can't be reserved.
    /// - Memory, if the queue can't grow.
    ///
    /// # Example
    /// From `crates/meet_sync_tests/src/checkpoints.rt`:
    ///
    ///     let Ok(Asked::Parked(seat)) = queue.request(rt, seat, Request::Give(1)) else {
    ///         return Err("0 put 1");
    ///     };
    #[inline(always)]
    pub fn request<R: Wait>(
        &self,
        rt: &R,
        mut seat: Seat<Deed, N>,
        request: Request<O::Item>,
    ) -> Result<Asked<O::Item, N>, SeatRefused<O::Item, N>>
        ensures asked { IfOk result (λ asked. AskedAs O.kind O.Item.mark_of seat request asked) }
        ensures refused { IfErr result (RefusedAs IsRequestWhy seat (item_of request)) }
        ensures since { IfErr result (λ refused. RefusedSince O.kind O.Item.mark_of seat.moment seat.number
            (call_of request) refused.why) }
    {
        if seat.reserve(2).is_err() {
            return Err(SeatRefused {
                why: Refusal::Memory,
                seat,
                item: request.into_item(),
            });
        }
        let mark = request.mark();
        match self.step(rt, &mut seat, request.into_call()) {
            Ok(answer) => Ok(asked_of(seat, mark, answer)),
            Err(refused) => Err(refused_with(seat, refused)),
        }
    }

    /// Interrupts a target by the number of its seat. If its request waits, that ends as interrupted, and its thread is
    /// woken; otherwise the interrupt becomes pending (the target is flagged).
    ///
    /// # Errors
    /// The seat is returned, and nothing is logged. The first that applies:
    /// - Memory, if the seat's list can't grow.
    /// - NoSuchSeat, if the queue has no seat of this number.
    /// - HistoryFull, if the log has no room for the record.
    /// - Memory, if the queue can't grow.
    ///
    /// # Example
    /// From `crates/meet_sync_tests/src/seals.rt`:
    ///
    ///     match queue.interrupt(rt, seat, target) {
    ///         Ok(came) => interrupted(came),
    ///         Err(why) => refused(why),
    ///     }
    ///
    /// Java: `Thread.interrupt`.
    pub fn interrupt<R: Wait>(
        &self,
        rt: &R,
        mut seat: Seat<Deed, N>,
        target: SeatNo,
    ) -> Result<Interrupted<N>, SeatRefused<O::Item, N>>
        ensures interrupted { IfOk result (λ interrupted. InterruptedAs seat target interrupted) }
        ensures there { IfOk result (λ _. target < N.parts) }
        ensures refused { IfErr result (RefusedAs (IsInterruptWhy N.parts target) seat None) }
    {
        if seat.reserve(1).is_err() {
            return Err(SeatRefused {
                why: Refusal::Memory,
                seat,
                item: None,
            });
        }
        let answer = match self.step(rt, &mut seat, QueueCall::Interrupt(target)) {
            Ok(answer) => answer,
            Err(refused) => return Err(refused_with(seat, refused)),
        };
        match answer {
            QueueAnswer::Interrupted(interrupted) => match interrupted {
                meet_core::Interrupted::Cut(ticket) => {
                    // No request has the ticket 0, so a ticket that was cut is above it.
                    if ticket.number() == 0 {
                        Ok(Interrupted::Flagged(seat))
                    } else {
                        Ok(Interrupted::Cut(seat, ticket))
                    }
                }
                meet_core::Interrupted::Flagged => Ok(Interrupted::Flagged(seat)),
            },
            _ => unreachable!(),
        }
    }
}
