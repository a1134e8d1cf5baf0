//! The three stages.

use crate::pairs::{Numbers, Sitting};
use ibisbookcase::queues::{End, Ledgers, Refusal, SeatRefused};
use std::sync::Wait;
use std::time::Clock;

/// Puts the numbers from 1 up to this one, and interrupts the consumer: it takes what is there, and then ends.
pub fn make<N: Ledgers, R: Wait + Clock>(
    rt: &R,
    out: &Numbers<N>,
    seat: Sitting<N>,
    last: u64,
) -> Result<Sitting<N>, Refusal> {
    let mut seat = seat;
    for number in 1..=last {
        let put = out.put(rt, seat, number).map_err(SeatRefused::into_why)?;
        seat = put.seat;
    }
    out.interrupt_all(rt, seat).map_err(SeatRefused::into_why)
}

/// Squares what comes, and passes it on, until it is interrupted; then it interrupts the next stage.
pub fn square<M: Ledgers, N: Ledgers, R: Wait + Clock>(
    rt: &R,
    numbers: &Numbers<M>,
    squares: &Numbers<N>,
    from: Sitting<M>,
    to: Sitting<N>,
) -> Result<(Sitting<M>, Sitting<N>), Refusal> {
    let mut from = from;
    let mut to = to;
    for _ in rt.forever() {
        let taken = numbers.take(rt, from).map_err(SeatRefused::into_why)?;
        from = taken.seat;
        let End::Got(_, number) = taken.end else {
            break;
        };
        let put = squares.put(rt, to, number.saturating_mul(number));
        to = put.map_err(SeatRefused::into_why)?.seat;
    }
    to = squares
        .interrupt_all(rt, to)
        .map_err(SeatRefused::into_why)?;
    Ok((from, to))
}

/// Adds up what comes, until it is interrupted.
pub fn add<N: Ledgers, R: Wait + Clock>(
    rt: &R,
    squares: &Numbers<N>,
    seat: Sitting<N>,
) -> Result<(Sitting<N>, u64), Refusal> {
    let mut seat = seat;
    let mut sum = 0u64;
    for _ in rt.forever() {
        let taken = squares.take(rt, seat).map_err(SeatRefused::into_why)?;
        seat = taken.seat;
        let End::Got(_, number) = taken.end else {
            break;
        };
        sum = sum.saturating_add(number);
    }
    Ok((seat, sum))
}
