//! The replies to a script's calls.

ghost use Rattle.std.specs.Prelude.{◌≡◌, ◌<◌, [], ◌∷◌, ◌++◌, vec_len};
ghost use Rattle.std.specs.Vec.{vec_capacity};
ghost use Rattle.meet_history.specs.OneThread.{named, told};
ghost use Rattle.meet_history.specs.Stepping.{back_of};

use meet_core::{Followed, Gave, Offered, Put, TakenBack};
use meet_queues::QueueAnswer;
use meet_tickets::{Cause, Deed, Record, Refusal, SeatNo, Ticket};

/// A reply to a call.
#[derive(Clone, Copy, PartialEq, Eq, Debug)]
pub struct Reply {
    /// The seat that made the call.
    pub seat: SeatNo,
    /// The result.
    pub outcome: Outcome,
}

/// The result of a call.
#[derive(Clone, Copy, PartialEq, Eq, Debug)]
pub enum Outcome {
    /// The record of this number, from 1, was written: of this ticket, with this answer.
    Recorded(u64, Ticket, Answer),
    /// The record of this number was written: this seat was interrupted. Its waiting request, of this ticket, was
    /// interrupted; without a ticket its interrupt is pending.
    Interrupted(u64, SeatNo, Option<Ticket>),
    /// The request still waits in the wait queue.
    NotYet,
    /// The request was matched or interrupted before.
    Late,
    /// A drain ended after this many items.
    Drained(u64),
    /// A query's number.
    Count(u64),
    /// The mark of the first item, if there is one.
    Peeked(Option<u64>),
    /// This many records were compacted since the first.
    Based(u64),
    /// The call failed, and nothing changed.
    Refused(Refusal),
}

/// The result of a logged request or completion. Items are named by their marks.
#[derive(Clone, Copy, PartialEq, Eq, Debug)]
pub enum Answer {
    /// The request goes to the wait queue and waits.
    Waits,
    /// The item is buffered.
    Kept,
    /// The item went to the consumer with this ticket.
    Gave(u64, Ticket),
    /// The item came from the producer with this ticket.
    Got(u64, Ticket),
    /// No counterpart was there; a producer's item is returned.
    Fails(Option<u64>),
    /// The producer was matched.
    Done,
    /// The request was withdrawn, or refused at entry; a producer's item is returned.
    Withdrawn(Cause, Option<u64>),
}

impl Outcome {
    /// What the seat is told of the record of this number, and a giver's item where the answer brings it back.
    #[inline(always)]
    pub(super) fn of(number: u64, entry: Record<Deed>, answer: &QueueAnswer<u64>) -> Outcome
        ensures { result ≡ told number entry.ticket entry.deed (back_of answer.now) }
    {
        let Record {
            seat: _,
            ticket,
            deed,
        } = entry;
        let told = match deed {
            Deed::GiveWaits(_) => Answer::Waits,
            Deed::GiveMeets(mark, with) => Answer::Gave(mark, with),
            Deed::GiveFails(_) => Answer::Fails(back_of(answer)),
            Deed::GiveKept(_) => Answer::Kept,
            Deed::TakeWaits => Answer::Waits,
            Deed::TakeMeets(mark, with) => Answer::Got(mark, with),
            Deed::TakeFails => Answer::Fails(back_of(answer)),
            Deed::EntryInterrupted(_) => Answer::Withdrawn(Cause::Interrupted, back_of(answer)),
            Deed::Done => Answer::Done,
            Deed::Got(mark, with) => Answer::Got(mark, with),
            Deed::Withdrawn(cause) => Answer::Withdrawn(cause, back_of(answer)),
            Deed::Interrupt(target) => {
                return Outcome::Interrupted(number, target, named(ticket));
            }
        };
        Outcome::Recorded(number, ticket, told)
    }
}

/// The giver's item that an answer brings back, where it brings one.
fn back_of(answer: &QueueAnswer<u64>) -> Option<u64>
    ensures { result ≡ back_of answer.now }
{
    match answer {
        QueueAnswer::Put(put) => match put {
            Put::Fails(_, item) => Some(*item),
            _ => None,
        },
        QueueAnswer::Gave(gave) => match gave {
            Gave::EntryInterrupted(_, item) => Some(*item),
            _ => None,
        },
        QueueAnswer::Offered(offered) => match offered {
            Offered::Fails(_, item) => Some(*item),
            _ => None,
        },
        QueueAnswer::Followed(followed) => match followed {
            Followed::Interrupted(item) => *item,
            _ => None,
        },
        QueueAnswer::TakenBack(back) => match back {
            TakenBack::Back(item) => *item,
            TakenBack::Late => None,
        },
        _ => None,
    }
}

/// The ticket, where it names one: ticket 0 names none.
fn named(ticket: Ticket) -> Option<Ticket>
    ensures { result ≡ named ticket }
{
    if ticket.number() == 0 {
        None
    } else {
        Some(ticket)
    }
}

/// Puts a reply behind others, where there is room.
pub(crate) fn push_reserved(replies: &mut Vec<Reply>, reply: Reply)
    requires { vec_len replies.old < vec_capacity replies.old }
    ensures items { replies.new.items ≡ replies.old.items ++ reply ∷ [] }
    ensures capacity { vec_capacity replies.new ≡ vec_capacity replies.old }
{
    // Named in parts: as a whole, the checker doesn't find the types inside it.
    let Reply { seat, outcome } = reply;
    replies.push_reserved(Reply { seat, outcome });
}
