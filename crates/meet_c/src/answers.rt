//! Results of calls, as structs of numbers.

ghost use Rattle.std.specs.Prelude.{◌≡◌};
ghost use Rattle.meet_c.specs.Answers.{told_gave, told_put, told_offered, told_took, told_polled, told_followed};
ghost use Rattle.meet_c.specs.Answers.{told_back};
ghost use Rattle.meet_c.specs.Answers.{told_interrupted, told, done, failed, item_of};

use meet_core::{Followed, Gave, Interrupted, Offered, Polled, Put, QueueAnswer, TakenBack, Took};

/// The result of a call. What it hasn't is 0.
#[repr(C)]
#[derive(Clone, Copy, PartialEq, Eq, Debug)]
pub struct Answer {
    /// 0 if the call was made, else the error.
    pub status: u64,
    /// The outcome, 1 to 13.
    pub outcome: u64,
    /// The ticket of the request, or of the request that an interrupt ended.
    pub ticket: u64,
    /// The partner's ticket.
    pub partner: u64,
    /// 1 if an item is returned.
    pub has_item: u64,
    /// The item.
    pub item: u64,
    /// One more than the number of the seat that may go on. A hint.
    pub wake: u64,
}

/// Makes the answer of a call that wasn't made.
pub(crate) fn failed(status: u64) -> Answer
    ensures { result ≡ failed status }
{
    Answer {
        status,
        outcome: 0,
        ticket: 0,
        partner: 0,
        has_item: 0,
        item: 0,
        wake: 0,
    }
}

/// Makes the answer of a call that was made, without an item.
fn done(outcome: u64, ticket: u64, partner: u64) -> Answer
    ensures { result ≡ done outcome ticket partner }
{
    Answer {
        status: 0,
        outcome,
        ticket,
        partner,
        has_item: 0,
        item: 0,
        wake: 0,
    }
}

/// Adds the item that is returned, if there is one.
fn with_item(answer: Answer, item: Option<u64>) -> Answer
    ensures { result ≡ item_of answer item }
{
    match item {
        None => answer,
        Some(item) => Answer {
            has_item: 1,
            item,
            ..answer
        },
    }
}

/// Returns the answer of a give.
fn tell_gave(gave: Gave<u64>) -> Answer
    ensures { result ≡ told_gave gave }
{
    match gave {
        Gave::Waits(ticket) => done(1, ticket.number(), 0),
        Gave::Meets(ticket, with) => done(2, ticket.number(), with.number()),
        Gave::EntryInterrupted(ticket, item) => with_item(done(5, ticket.number(), 0), Some(item)),
    }
}

/// Returns the answer of a put of a queue that buffers items.
fn tell_put(put: Put<u64>) -> Answer
    ensures { result ≡ told_put put }
{
    match put {
        Put::Kept(ticket) => done(4, ticket.number(), 0),
        Put::Meets(ticket, with) => done(2, ticket.number(), with.number()),
        Put::Fails(ticket, item) => with_item(done(3, ticket.number(), 0), Some(item)),
    }
}

/// Returns the answer of an offer.
fn tell_offered(offered: Offered<u64>) -> Answer
    ensures { result ≡ told_offered offered }
{
    match offered {
        Offered::Meets(ticket, with) => done(2, ticket.number(), with.number()),
        Offered::Fails(ticket, item) => with_item(done(3, ticket.number(), 0), Some(item)),
    }
}

/// Returns the answer of a take.
fn tell_took(took: Took<u64>) -> Answer
    ensures { result ≡ told_took took }
{
    match took {
        Took::Waits(ticket) => done(1, ticket.number(), 0),
        Took::Meets(ticket, with, item) => {
            with_item(done(2, ticket.number(), with.number()), Some(item))
        }
        Took::EntryInterrupted(ticket) => done(5, ticket.number(), 0),
    }
}

/// Returns the answer of a poll.
fn tell_polled(polled: Polled<u64>) -> Answer
    ensures { result ≡ told_polled polled }
{
    match polled {
        Polled::Meets(ticket, with, item) => {
            with_item(done(2, ticket.number(), with.number()), Some(item))
        }
        Polled::Fails(ticket) => done(3, ticket.number(), 0),
    }
}

/// Returns the answer of a follow-up.
fn tell_followed(followed: Followed<u64>) -> Answer
    ensures { result ≡ told_followed followed }
{
    match followed {
        Followed::Done => done(6, 0, 0),
        Followed::Got(with, item) => with_item(done(7, 0, with.number()), Some(item)),
        Followed::Interrupted(item) => with_item(done(8, 0, 0), item),
        Followed::NotYet => done(9, 0, 0),
    }
}

/// Returns the answer of a cancel or an expiry.
fn tell_back(back: TakenBack<u64>) -> Answer
    ensures { result ≡ told_back back }
{
    match back {
        TakenBack::Back(item) => with_item(done(10, 0, 0), item),
        TakenBack::Late => done(11, 0, 0),
    }
}

/// Returns the answer of an interrupt.
fn tell_interrupted(interrupted: Interrupted) -> Answer
    ensures { result ≡ told_interrupted interrupted }
{
    match interrupted {
        Interrupted::Cut(ticket) => done(12, ticket.number(), 0),
        Interrupted::Flagged => done(13, 0, 0),
    }
}

/// Returns the answer of a call, without the seat that may go on.
pub(crate) fn tell(answer: QueueAnswer<u64>) -> Answer
    ensures { result ≡ told answer }
{
    match answer {
        QueueAnswer::Put(put) => tell_put(put),
        QueueAnswer::Gave(gave) => tell_gave(gave),
        QueueAnswer::Offered(offered) => tell_offered(offered),
        QueueAnswer::Took(took) => tell_took(took),
        QueueAnswer::Polled(polled) => tell_polled(polled),
        QueueAnswer::Followed(followed) => tell_followed(followed),
        QueueAnswer::TakenBack(back) => tell_back(back),
        QueueAnswer::Interrupted(interrupted) => tell_interrupted(interrupted),
    }
}
