//! A place as events leave it.

ghost use Rattle.std.specs.Prelude.{◌≡◌, IfOk, OnOk};
ghost use Rattle.meet_tickets.specs.Meeting.{end_of, partner};
ghost use Rattle.meet_tickets.specs.BySeat.{put_at};
ghost use Rattle.meet_overlap.specs.Places.{hold_at, flag_at, scene};

use crate::line::{Line, copied_entry};
use meet_tickets::{Entry, Hold, Kind, SeatNo, Side};
use std::alloc::{AllocError, Global};

/// A place as events leave it.
#[derive(Drop)]
pub(crate) struct Place {
    pub(crate) last: u64,
    pub(crate) line: Line,
    pub(crate) holds: Vec<Hold<u64>>,
    pub(crate) flags: Vec<bool>,
}

/// What a seat holds, once more.
fn copied_hold(hold: &Hold<u64>) -> Hold<u64>
    ensures { result ≡ hold.now }
{
    match hold {
        Hold::Free => Hold::Free,
        Hold::Waiting(ticket) => Hold::Waiting(*ticket),
        Hold::Handed(ticket, with, mark) => Hold::Handed(*ticket, *with, *mark),
        Hold::Served(ticket, with, item) => Hold::Served(*ticket, *with, *item),
        Hold::Cut(ticket, item) => Hold::Cut(*ticket, *item),
    }
}

/// The same table once more. Fails only if an allocation fails.
fn copied_holds(alloc: Global, holds: &[Hold<u64>]) -> Result<Vec<Hold<u64>>, AllocError>
    ensures { IfOk result (λ copy. copy.items ≡ holds.now) }
{
    let mut copy = Vec::new(alloc);
    for hold in holds {
        copy.push(copied_hold(hold))?;
    }
    Ok(copy)
}

/// The same place once more. Fails only if an allocation fails.
pub(crate) fn copied(alloc: Global, place: &Place) -> Result<Place, AllocError>
    ensures { IfOk result (λ copy. scene copy ≡ scene place.now) }
{
    let line = place.line.copied(alloc)?;
    let holds = copied_holds(alloc, &place.holds)?;
    let flags = place.flags.as_slice().to_vec(alloc)?;
    Ok(Place {
        last: place.last,
        line,
        holds,
        flags,
    })
}

/// Puts what a seat holds in the place of what it held. Fails only if an allocation fails.
pub(crate) fn put_hold(
    holds: &mut Vec<Hold<u64>>,
    seat: SeatNo,
    hold: Hold<u64>,
) -> Result<(), AllocError>
    ensures { OnOk result (hold_at holds.new.items ≡ put_at (hold_at holds.old.items) seat hold) }
{
    let index = seat.number() as usize;
    while holds.len() <= index {
        holds.push(Hold::Free)?;
    }
    holds[index] = hold;
    Ok(())
}

/// Sets or clears a seat's flag. Fails only if an allocation fails.
pub(crate) fn put_flag(flags: &mut Vec<bool>, seat: SeatNo, flag: bool) -> Result<(), AllocError>
    ensures { OnOk result (flag_at flags.new.items ≡ put_at (flag_at flags.old.items) seat flag) }
{
    let index = seat.number() as usize;
    while flags.len() <= index {
        flags.push(false)?;
    }
    flags[index] = flag;
    Ok(())
}

/// The partner of a request of this side, if it has one.
pub(crate) fn partner(kind: Kind, line: &[Entry<u64>], side: Side) -> Option<Entry<u64>>
    ensures { result ≡ partner (end_of kind.order) line.now side }
{
    match kind.partner(line, side) {
        Some(met) => Some(copied_entry(met)),
        None => None,
    }
}

/// What this seat holds.
pub(crate) fn hold(holds: &[Hold<u64>], seat: SeatNo) -> Hold<u64>
    ensures { result ≡ hold_at holds.now seat }
{
    let index = seat.number() as usize;
    if index < holds.len() {
        copied_hold(&holds[index])
    } else {
        Hold::Free
    }
}

/// Whether this seat is flagged.
pub(crate) fn flag(flags: &[bool], seat: SeatNo) -> bool
    ensures { result ≡ flag_at flags.now seat }
{
    let index = seat.number() as usize;
    if index < flags.len() {
        flags[index]
    } else {
        false
    }
}
