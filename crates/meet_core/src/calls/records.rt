//! A queue's results of a seat's calls, each with its record.

ghost use Rattle.std.specs.Prelude.{◌≡◌, Some};
ghost use Rattle.meet_core.specs.QueueRecords.{give_record, offer_record, take_record, poll_record, follow_record};
ghost use Rattle.meet_core.specs.QueueRecords.{back_record, interrupt_record, put_record};

use crate::answers::{Followed, Gave, Interrupted, Offered, Polled, Put, TakenBack, Took};
use crate::calls::queue_calls::QueueAnswer;
use meet_tickets::{Cause, Deed, Marked, Record, SeatNo, Side, Ticket};

/// The result of a call, and its record, if there is one.
pub type Answered<T> = (QueueAnswer<T>, Option<Record<Deed>>);

/// The answer to a give of an item with this mark.
#[inline(always)]
pub(crate) fn of_give<T>(seat: SeatNo, mark: u64, gave: Gave<T>) -> Answered<T>
    ensures { result ≡ (QueueAnswer.Gave gave, Some (give_record seat mark gave)) }
{
    let (ticket, deed) = match &gave {
        Gave::Waits(ticket) => (*ticket, Deed::GiveWaits(mark)),
        Gave::Meets(ticket, with) => (*ticket, Deed::GiveMeets(mark, *with)),
        Gave::EntryInterrupted(ticket, _) => (*ticket, Deed::EntryInterrupted(Side::Giver)),
    };
    let entry = Record { seat, ticket, deed };
    (QueueAnswer::Gave(gave), Some(entry))
}

/// Returns the result of a put of an item with this mark, with its record.
pub fn answered_put<T>(seat: SeatNo, mark: u64, put: Put<T>) -> Answered<T>
    ensures { result ≡ (QueueAnswer.Put put, Some (put_record seat mark put)) }
{
    let (ticket, deed) = match &put {
        Put::Kept(ticket) => (*ticket, Deed::GiveKept(mark)),
        Put::Meets(ticket, with) => (*ticket, Deed::GiveMeets(mark, *with)),
        Put::Fails(ticket, _) => (*ticket, Deed::GiveFails(mark)),
    };
    let entry = Record { seat, ticket, deed };
    (QueueAnswer::Put(put), Some(entry))
}

/// The answer to an offer of an item with this mark.
pub(crate) fn of_offer<T>(seat: SeatNo, mark: u64, offered: Offered<T>) -> Answered<T>
    ensures { result ≡ (QueueAnswer.Offered offered, Some (offer_record seat mark offered)) }
{
    let (ticket, deed) = match &offered {
        Offered::Meets(ticket, with) => (*ticket, Deed::GiveMeets(mark, *with)),
        Offered::Fails(ticket, _) => (*ticket, Deed::GiveFails(mark)),
    };
    let entry = Record { seat, ticket, deed };
    (QueueAnswer::Offered(offered), Some(entry))
}

/// The answer to a take.
#[inline(always)]
pub(crate) fn of_take<T: Marked>(seat: SeatNo, took: Took<T>) -> Answered<T>
    ensures { result ≡ (QueueAnswer.Took took, Some (take_record T.mark_of seat took)) }
{
    let (ticket, deed) = match &took {
        Took::Waits(ticket) => (*ticket, Deed::TakeWaits),
        Took::Meets(ticket, with, item) => (*ticket, Deed::TakeMeets(item.mark(), *with)),
        Took::EntryInterrupted(ticket) => (*ticket, Deed::EntryInterrupted(Side::Taker)),
    };
    let entry = Record { seat, ticket, deed };
    (QueueAnswer::Took(took), Some(entry))
}

/// The answer to a poll.
pub(crate) fn of_poll<T: Marked>(seat: SeatNo, polled: Polled<T>) -> Answered<T>
    ensures { result ≡ (QueueAnswer.Polled polled, Some (poll_record T.mark_of seat polled)) }
{
    let (ticket, deed) = match &polled {
        Polled::Meets(ticket, with, item) => (*ticket, Deed::TakeMeets(item.mark(), *with)),
        Polled::Fails(ticket) => (*ticket, Deed::TakeFails),
    };
    let entry = Record { seat, ticket, deed };
    (QueueAnswer::Polled(polled), Some(entry))
}

/// The answer to this ticket's follow-up; no record where it still stands in the line.
#[inline(always)]
pub(crate) fn of_follow_up<T: Marked>(
    seat: SeatNo,
    ticket: Ticket,
    followed: Followed<T>,
) -> Answered<T>
    ensures { result ≡ (QueueAnswer.Followed followed, follow_record T.mark_of seat ticket followed) }
{
    let deed = match &followed {
        Followed::Done => Some(Deed::Done),
        Followed::Got(with, item) => Some(Deed::Got(item.mark(), *with)),
        Followed::Interrupted(_) => Some(Deed::Withdrawn(Cause::Interrupted)),
        Followed::NotYet => None,
    };
    let entry = deed.map(|deed| Record { seat, ticket, deed });
    (QueueAnswer::Followed(followed), entry)
}

/// The answer to this ticket's withdrawal for this cause; no record where it came too late.
pub(crate) fn of_withdrawal<T>(
    seat: SeatNo,
    ticket: Ticket,
    cause: Cause,
    back: TakenBack<T>,
) -> Answered<T>
    ensures { result ≡ (QueueAnswer.TakenBack back, back_record seat ticket cause back) }
{
    let entry = match &back {
        TakenBack::Back(_) => Some(Record {
            seat,
            ticket,
            deed: Deed::Withdrawn(cause),
        }),
        TakenBack::Late => None,
    };
    (QueueAnswer::TakenBack(back), entry)
}

/// The answer to an interrupt, whose record names the ticket that was cut, or 0.
pub(crate) fn of_interrupt<T>(seat: SeatNo, target: SeatNo, interrupted: Interrupted) -> Answered<T>
    ensures { result ≡ (QueueAnswer.Interrupted interrupted, Some (interrupt_record seat target interrupted)) }
{
    let ticket = match &interrupted {
        Interrupted::Cut(ticket) => *ticket,
        Interrupted::Flagged => Ticket::new(0).unwrap(),
    };
    let entry = Record {
        seat,
        ticket,
        deed: Deed::Interrupt(target),
    };
    (QueueAnswer::Interrupted(interrupted), Some(entry))
}
