//! The library as one thread uses it: parcels go from seat to seat, by queues and by an exchanger. It names the crates
//! that it uses, in place of `ibisbookcase`, and needs none of those for threads.

mod handoff;
mod recorded;
mod swapped;
mod telling;
mod transfers;

use crate::parcels::passing::Parcel;
use anyhow::Result;
use handoff::{hand_over, poll_twice};
use meet_tickets::{Refusal, SeatNo};
use recorded::keep_book;
use swapped::swap_parcels;
use transfers::leave_and_wait;

/// A parcel of this number, of 250 g.
pub fn parcel_of(mark: u64) -> Parcel {
    Parcel { mark, grams: 250 }
}

/// Runs the program.
pub fn run(rt: &HostRuntime) -> Result<()> {
    let seat_0 = SeatNo::new(0).ok_or(Refusal::NoSuchSeat)?;
    let seat_1 = SeatNo::new(1).ok_or(Refusal::NoSuchSeat)?;
    let seat_2 = SeatNo::new(2).ok_or(Refusal::NoSuchSeat)?;
    hand_over(rt, seat_0, seat_1)?;
    poll_twice(rt, seat_0, seat_1)?;
    leave_and_wait(rt, seat_0, seat_1)?;
    keep_book(rt, seat_0, seat_1, seat_2)?;
    swap_parcels(rt)
}
