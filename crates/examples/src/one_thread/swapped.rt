//! A first use of the exchanger: two seats exchange parcels in a slot, by single steps.
ghost use Rattle.std.specs.Prelude.{◌<◌, IfOk};
ghost use Rattle.examples.specs.Came.{IsOf};

mod endings;

use self::endings::end_offer;
use crate::parcels::passing::Parcel;
use anyhow::Result;
use meet_exchange::{Arena, Back, CloseFault, Closed, Offered};
use meet_tickets::Refusal;

/// The seat offers a parcel of 250 g in slot 0, if it has no offer there already.
fn offer(
    rt: &HostRuntime,
    arena: &Arena<Parcel>,
    back: Back<Parcel>,
    mark: u64,
) -> Result<Back<Parcel>>
    requires place { IsOf arena.now.id arena.now.slots back }
    requires slot { 0 < arena.now.slots }
    ensures { IfOk result (λ b. IsOf arena.now.id arena.now.slots b) }
{
    let Back::Free(seat) = back else {
        return Ok(back);
    };
    let number = seat.number().number();
    match arena.offer(seat, 0, Parcel { mark, grams: 250 }) {
        Offered::Posted(pending) => {
            println!(rt; "seat {number} posted {mark}")?;
            Ok(Back::Held(pending))
        }
        Offered::Swapped(seat, parcel) => {
            println!(rt; "seat {number} swapped {mark} for {}", parcel.mark)?;
            Ok(Back::Free(seat))
        }
        Offered::Contended(seat, parcel, _) => {
            println!(rt;
                "seat {number} has {} back: others are at work there",
                parcel.mark
            )?;
            Ok(Back::Free(seat))
        }
        Offered::Worn(_, _) => Err(Refusal::Worn)?,
        Offered::Memory(_, _) => Err(Refusal::Memory)?,
    }
}

/// The seat ends its offer, if it has one.
fn end(rt: &HostRuntime, arena: &Arena<Parcel>, back: Back<Parcel>) -> Result<Back<Parcel>>
    requires { IsOf arena.now.id arena.now.slots back }
    ensures { IfOk result (λ b. IsOf arena.now.id arena.now.slots b) }
{
    let Back::Held(pending) = back else {
        return Ok(back);
    };
    let number = pending.number().number();
    match end_offer(arena, pending) {
        Ok((seat, parcel)) => {
            println!(rt; "seat {number} has {} of {} g", parcel.mark, parcel.grams)?;
            Ok(Back::Free(seat))
        }
        Err(pending) => {
            println!(rt; "seat {number} is to have another, soon")?;
            Ok(Back::Held(pending))
        }
    }
}

/// Prints how the arena ended.
fn tell(rt: &HostRuntime, closed: &Closed<Parcel>) -> Result<()> {
    for rounds in &closed.slots {
        println!(rt; "{} rounds", rounds.len())?;
    }
    for list in &closed.lists {
        println!(rt; "a seat did {} parts", list.len())?;
    }
    for it in &closed.left {
        println!(rt;
            "{} is left in round {} of slot {}",
            it.item.mark, it.round, it.slot
        )?;
    }
    Ok(())
}

/// Two parcels change seats, one is returned, and one is left.
pub fn swap_parcels(rt: &HostRuntime) -> Result<()> {
    let alloc = rt.alloc();
    let (arena, mut seats) = Arena::<Parcel>::new(alloc, 1, 2)?; // one slot, two seats
    let (Some(one), Some(zero)) = (seats.pop(), seats.pop()) else {
        return Err(Refusal::SeatMissing)?;
    };
    let zero = offer(rt, &arena, Back::Free(zero), 5)?; // nobody is there: 5 is posted
    let one = offer(rt, &arena, Back::Free(one), 6)?; // 6 for 5
    let zero = end(rt, &arena, zero)?; // 6 is collected
    let one = offer(rt, &arena, one, 7)?;
    let one = end(rt, &arena, one)?; // nobody came: 7 is back
    let zero = offer(rt, &arena, zero, 8)?; // nobody will come
    let mut backs = Vec::new(alloc);
    backs.push(zero)?;
    backs.push(one)?;
    let closed = arena.close(alloc, backs).map_err(CloseFault::into_why)?; // what comes back at a fault is dropped
    tell(rt, &closed)
}
