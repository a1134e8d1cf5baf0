//! The calls of a queue, made.

ghost use Rattle.std.specs.Prelude.{◌≡◌, ◌≢◌, ◌<◌, ◌≤◌, Some, None, IfOk, IfErr};
ghost use Rattle.meet_tickets.specs.Meeting.{kept_count};
ghost use Rattle.meet_tickets.specs.declared.refusals.Refusal.TheVariants.{Memory, HistoryFull};
ghost use Rattle.meet_core.specs.Queue.{places_of};
ghost use Rattle.meet_core.specs.QueueRecords.{queue_record};
ghost use Rattle.meet_core.specs.QueueSteps.{DualStep, queue_refusal, queue_room, IsOwn};

use crate::calls::queue_calls::QueueCall;
use crate::calls::{records, refusals};
use crate::meetings::Meetings;
use meet_line::Line;
use meet_tickets::{Cause, Marked, Refusal, SeatNo};

/// Returns whether this seat's call is admitted. It doesn't allocate.
///
/// # Errors
/// The first that applies:
/// - NoSuchSeat, of a request or an interrupt, if the queue has no such seat or target.
/// - SeatOpen, of a request, if the seat has a pending request (an open ticket).
/// - TicketsSpent, of a request, if all tickets are used.
/// - NotOpen, of a completion, if the ticket isn't the open one of that seat.
#[inline(always)]
pub fn admit_call<T: Marked, L: Line<T>>(
    queue: &Meetings<T, L>,
    seat: SeatNo,
    call: &QueueCall<T>,
) -> Result<(), Refusal>
    ensures admitted { IfOk result (λ _. queue_refusal queue.now seat call.now ≡ None) }
    ensures why { IfErr result (λ why. queue_refusal queue.now seat call.now ≡ Some why) }
    ensures own { IfErr result IsOwn }
    ensures others { IfErr result (λ why. (why ≢ Memory) × (why ≢ HistoryFull)) }
{
    match call {
        QueueCall::Put(_)
        | QueueCall::Give(_)
        | QueueCall::Offer(_)
        | QueueCall::Take
        | QueueCall::Poll => match queue.admit(seat) {
            Ok(_) => Ok(()),
            Err(why) => Err(why),
        },
        QueueCall::FollowUp(ticket) | QueueCall::Cancel(ticket) | QueueCall::Expire(ticket) => {
            refusals::ending(queue.open_ticket(seat), *ticket)
        }
        QueueCall::Interrupt(target) => refusals::interrupt(queue.seats(), seat, *target),
    }
}

/// Makes an admitted call of a queue that buffers nothing, for which there is room, and returns its result and its
/// record. A put waits. It doesn't allocate.
#[inline(always)]
pub fn make_call<T: Marked, L: Line<T>>(
    queue: &mut Meetings<T, L>,
    seat: SeatNo,
    call: QueueCall<T>,
) -> records::Answered<T>
    requires admitted { queue_refusal queue.old seat call ≡ None }
    requires room { queue_room call ≤ queue.old.room }
    ensures step { DualStep T.mark_of L.end queue.old seat call result.0 queue.new }
    ensures entry { result.1 ≡ queue_record T.mark_of seat call result.0 }
    ensures places { places_of queue.new ≡ places_of queue.old }
    ensures kept { kept_count queue.new.line ≤ kept_count queue.old.line }
{
    match call {
        QueueCall::Put(item) | QueueCall::Give(item) => {
            let mark = item.mark();
            records::of_give(seat, mark, queue.give_admitted(seat, item))
        }
        QueueCall::Offer(item) => {
            let mark = item.mark();
            records::of_offer(seat, mark, queue.offer_admitted(seat, item))
        }
        QueueCall::Take => records::of_take(seat, queue.take_admitted(seat)),
        QueueCall::Poll => records::of_poll(seat, queue.poll_admitted(seat)),
        QueueCall::FollowUp(ticket) => {
            let followed = queue.follow_up(seat, ticket).unwrap();
            records::of_follow_up(seat, ticket, followed)
        }
        QueueCall::Cancel(ticket) => {
            let back = queue.cancel(seat, ticket).unwrap();
            records::of_withdrawal(seat, ticket, Cause::Cancelled, back)
        }
        QueueCall::Expire(ticket) => {
            let back = queue.expire(seat, ticket).unwrap();
            records::of_withdrawal(seat, ticket, Cause::Expired, back)
        }
        QueueCall::Interrupt(target) => {
            let interrupted = queue.interrupt(target).unwrap();
            records::of_interrupt(seat, target, interrupted)
        }
    }
}
