//! The transfer queue: parcels that are buffered, and parcels whose producer waits.

use crate::one_thread::parcel_of;
use crate::one_thread::telling::{tell_gave, tell_offered, tell_put};
use crate::parcels::passing::Parcel;
use anyhow::Result;
use meet_tickets::{Refused, SeatNo};
use meet_transfer::Transfer;

/// One seat leaves a parcel in the queue, and waits with another; a second seat finds no consumer.
pub fn leave_and_wait(rt: &HostRuntime, seat_0: SeatNo, seat_1: SeatNo) -> Result<()> {
    let alloc = rt.alloc();
    let mut queue: Transfer<Parcel> = Transfer::with_bound(alloc, 3, 1, 100)?; // keeps at most 100 items
    three_parcels(rt, &mut queue, seat_0, seat_1)
}

/// The calls of both seats, one after another.
fn three_parcels(
    rt: &HostRuntime,
    queue: &mut Transfer<Parcel>,
    seat_0: SeatNo,
    seat_1: SeatNo,
) -> Result<()> {
    put(rt, queue, seat_0)?;
    transfer(rt, queue, seat_0)?;
    try_transfer(rt, queue, seat_1)?;
    size(rt, queue)
}

/// A seat leaves a parcel.
fn put(rt: &HostRuntime, queue: &mut Transfer<Parcel>, seat_0: SeatNo) -> Result<()> {
    let first = parcel_of(8);
    // A refusal would bring the parcel back; `into_why` lets it go.
    let put = queue.put(seat_0, first).map_err(Refused::into_why)?; // Put::Kept(ticket), Put::Meets(ticket, with), ..
    tell_put(rt, put)
}

/// A seat waits with a parcel.
fn transfer(rt: &HostRuntime, queue: &mut Transfer<Parcel>, seat_0: SeatNo) -> Result<()> {
    let second = parcel_of(9);
    let gave = queue.transfer(seat_0, second).map_err(Refused::into_why)?; // Gave::Waits(ticket), ..
    tell_gave(rt, gave)?;
    Ok(())
}

/// A seat gives a parcel to a consumer that waits, if one does.
fn try_transfer(rt: &HostRuntime, queue: &mut Transfer<Parcel>, seat_1: SeatNo) -> Result<()> {
    let third = parcel_of(10);
    let offered = queue.try_transfer(seat_1, third);
    let offered = offered.map_err(Refused::into_why)?; // Offered::Meets(ticket, with), Offered::Fails(ticket, item)
    tell_offered(rt, offered)
}

/// Prints how many producers there are.
fn size(rt: &HostRuntime, queue: &Transfer<Parcel>) -> Result<()> {
    let size = queue.size(); // the givers in the line, kept or waiting
    println!(rt; "size {size}")?;
    Ok(())
}
