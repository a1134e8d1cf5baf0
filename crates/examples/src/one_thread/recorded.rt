//! A synchronous queue of parcels under a log (a book): each step has its record.

ghost use Rattle.std.specs.Prelude.{◌≡◌, ◌↔◌, None, IsNone, IfOk, IfSome, option_map};
ghost use Rattle.std.specs.Option.{option_and_then};
ghost use Rattle.meet_tickets.specs.Meeting.{partner};
ghost use Rattle.meet_tickets.specs.declared.places.Side.TheVariants.{Taker};
ghost use Rattle.examples.specs.Named.{Names};

use crate::one_thread::parcel_of;
use crate::parcels::passing::Parcel;
use anyhow::Result;
use meet_book::{Book, Receipt};
use meet_core::{Dual, Polled, QueueAnswer, QueueCall};
use meet_line::{FairLine, Line};
use meet_queues::queue_book;
use meet_tickets::{Deed, Refusal, Refused, SeatNo};

/// Takes the parcel of a producer that waits, and returns it with the receipt for the record that names it; None if
/// none waits. It fails as `Book::step` does. Java: `SynchronousQueue.poll`.
pub fn take_on_record<L: Line<Parcel>>(
    book: &mut Book<Dual<Parcel, L>>,
    seat: SeatNo,
) -> Result<Option<(Parcel, Receipt<Deed>)>, Refusal>
    ensures came { IfOk result (λ made. option_map (λ taken. taken.0) made
        ≡ option_and_then (λ e. e.item) (partner L.end book.old.object.queue.line Taker)) }
    ensures nobody { IfOk result (λ made. IsNone made ↔ (partner L.end book.old.object.queue.line Taker ≡ None)) }
    ensures named { IfOk result (λ made. IfSome made (λ taken. Names seat taken.0 taken.1.entry)) }
{
    let (answer, receipt) = book.step(seat, QueueCall::Poll).map_err(Refused::into_why)?;
    let Some(receipt) = receipt else {
        unreachable!()
    };
    match answer {
        QueueAnswer::Polled(polled) => match polled {
            Polled::Meets(_, _, parcel) => Ok(Some((parcel, receipt))),
            Polled::Fails(_) => Ok(None),
        },
        _ => unreachable!(),
    }
}

/// A synchronous queue of parcels in fair mode, under a log.
type Recorded = Book<Dual<Parcel, FairLine<Parcel>>>;

/// One seat gives a parcel, and another polls it; a third gives one, which is drained. Each step has its record.
pub fn keep_book(rt: &HostRuntime, seat_0: SeatNo, seat_1: SeatNo, seat_2: SeatNo) -> Result<()> {
    let alloc = rt.alloc();
    let mut book: Book<Dual<Parcel, FairLine<Parcel>>> = queue_book(alloc, 3, 1, 1_000)?; // at most 1,000 records
    all_calls(rt, &mut book, seat_0, seat_1, seat_2)
}

/// The calls of the seats, one after another.
fn all_calls(
    rt: &HostRuntime,
    book: &mut Recorded,
    seat_0: SeatNo,
    seat_1: SeatNo,
    seat_2: SeatNo,
) -> Result<()> {
    give(rt, book, seat_0, parcel_of(11))?;
    poll(rt, book, seat_1)?;
    give(rt, book, seat_2, parcel_of(12))?;
    drain(rt, book, seat_1)?;
    fold(rt, book)
}

/// A seat gives a parcel, and its record is printed.
fn give(rt: &HostRuntime, book: &mut Recorded, seat: SeatNo, item: Parcel) -> Result<()> {
    // A refusal would bring the call back, and the parcel in it; `into_why` lets both go.
    let given = book.step(seat, QueueCall::Give(item));
    let (_, receipt) = given.map_err(Refused::into_why)?; // QueueAnswer::Gave(..), Some(receipt)
    if let Some(receipt) = receipt {
        let entry = receipt.entry(); // the record; receipt.place() is its number
        println!(rt; "record {} of t{}", receipt.place(), entry.ticket.number())?;
    }
    Ok(())
}

/// A seat polls, and the record of what it got is printed.
fn poll(rt: &HostRuntime, book: &mut Recorded, seat: SeatNo) -> Result<()> {
    if let Some((parcel, receipt)) = take_on_record(book, seat)? {
        println!(rt; "record {} brought {}", receipt.place(), parcel.mark)?;
    }
    Ok(())
}

/// A seat drains what is there.
fn drain(rt: &HostRuntime, book: &mut Recorded, seat: SeatNo) -> Result<()> {
    let taken = book.drain(rt.alloc(), seat, 10)?; // up to ten items, an answer and a receipt for each
    println!(rt; "drained {}", taken.len())?;
    Ok(())
}

/// The records are compacted.
fn fold(rt: &HostRuntime, book: &mut Recorded) -> Result<()> {
    let records = book.records(); // the records since the book was cut last
    println!(rt; "{} records", records.len())?;
    let gone = book.cut()?; // folds them into book.base(): a book never fills for good
    println!(rt; "{gone} folded away, {} left", book.records().len())?;
    Ok(())
}
