//! The queues under a book.

use crate::answers::queue;
use crate::parcels::{Ask, Parcel, Told, numbered, seat, ticket};
use crate::places::{Place, Shown};
use meet_book::{Book, Object, Receipt};
use meet_core::{Buffers, Dual, LocalQueue};
use meet_line::{Line, TransferLine};
use meet_queues::{QueueAnswer, QueueCall};
use meet_tickets::{Base, Deed, Record, Refused, SeatNo};
use meet_transfer::{Transfer, Unbounded};
use std::process::Abort;

/// The call of a queue that a seat makes.
fn call_of(rt: &impl Abort, ask: Ask) -> QueueCall<Parcel> {
    match ask {
        Ask::Put(serial) => QueueCall::Put(numbered(serial)),
        Ask::Give(serial) => QueueCall::Give(numbered(serial)),
        Ask::Offer(serial) => QueueCall::Offer(numbered(serial)),
        Ask::Take => QueueCall::Take,
        Ask::Poll => QueueCall::Poll,
        Ask::Follow(own) => QueueCall::FollowUp(ticket(rt, own)),
        Ask::Cancel(own) => QueueCall::Cancel(ticket(rt, own)),
        Ask::Expire(own) => QueueCall::Expire(ticket(rt, own)),
        Ask::Interrupt(target) => QueueCall::Interrupt(seat(rt, target)),
    }
}

/// A call's receipt is for the last of the records, behind those that were folded away, or nothing more was written.
fn is_written(
    rt: &impl Abort,
    before: usize,
    gone: u64,
    records: &[Record<Deed>],
    receipt: Option<Receipt<Deed>>,
) {
    match receipt {
        None => assert_eq!(rt; records.len(), before),
        Some(receipt) => {
            assert_eq!(rt; records.len().wrapping_sub(1), before);
            assert_eq!(rt; receipt.place().wrapping_sub(gone), records.len() as u64);
            assert_eq!(rt; Some(receipt.entry()), records.last().copied());
        }
    }
}

/// A seat makes a call at a book, which writes as it should.
fn steps<O: Object<Deed = Deed, Base = Base>>(
    rt: &impl Abort,
    book: &mut Book<O>,
    at: SeatNo,
    call: O::Call,
) -> Result<O::Answer, Refused<O::Call>> {
    let before = book.records().len();
    match book.step(at, call) {
        Ok((answer, receipt)) => {
            is_written(rt, before, book.base().gone, book.records(), receipt);
            Ok(answer)
        }
        Err(refused) => Err(refused),
    }
}

/// What a seat is told of a queue's answer.
fn told(made: Result<QueueAnswer<Parcel>, Refused<QueueCall<Parcel>>>) -> Told {
    match made {
        Ok(answer) => queue(answer),
        Err(refused) => Told::Refused(
            refused.why,
            refused.back.into_item().map(|item| item.serial),
        ),
    }
}

impl<L: Line<Parcel>, K: Buffers<Parcel, L>> Place for Book<LocalQueue<Parcel, L, K>> {
    fn answer<A: Abort>(&mut self, rt: &A, at: SeatNo, ask: Ask) -> Told {
        told(steps(rt, self, at, call_of(rt, ask)))
    }
}

impl<L: Line<Parcel>> Shown for Book<Dual<Parcel, L>> {
    fn shown(&self) -> [u64; 6] {
        let place = self.probe();
        [
            self.records().len() as u64,
            place.room(),
            place.waiting(),
            place.uncollected(),
            place.givers(),
            place.tickets_left(),
        ]
    }
}

/// What a book of a transfer queue shows, which has so many records.
fn shown_of<K: Buffers<Parcel, TransferLine<Parcel>>>(
    records: usize,
    place: &LocalQueue<Parcel, TransferLine<Parcel>, K>,
) -> [u64; 6] {
    [
        records as u64,
        place.room(),
        place.waiting(),
        place.uncollected(),
        place.kept(),
        place.tickets_left(),
    ]
}

impl Shown for Book<Transfer<Parcel>> {
    fn shown(&self) -> [u64; 6] {
        shown_of(self.records().len(), self.probe())
    }
}

impl Shown for Book<Unbounded<Parcel>> {
    fn shown(&self) -> [u64; 6] {
        shown_of(self.records().len(), self.probe())
    }
}
