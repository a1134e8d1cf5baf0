//! Worked histories: what became of their tickets, where the items are, and what is left once the tickets that were cut
//! or taken back are erased.

use meet_core::{Left, LeftStanding};
use meet_laws::{Tally, erase, fate, reckon};
use meet_tickets::{Base, Cause, Deed, Fate, Record, SeatNo, Side, Ticket};
use std::alloc::Global;
use std::process::Abort;
use std::test::Fail;

pub fn ticket(number: u64) -> Result<Ticket, Fail> {
    Ok(Ticket::new(number).ok_or("ticket")?)
}

pub fn entry(seat: u64, number: u64, deed: Deed) -> Result<Record<Deed>, Fail> {
    let seat = SeatNo::new(seat).ok_or("seat")?;
    Ok(Record {
        seat,
        ticket: ticket(number)?,
        deed,
    })
}

fn remains(number: u64, standing: LeftStanding) -> Result<Left<u64>, Fail> {
    Ok(Left {
        ticket: ticket(number)?,
        item: number,
        standing,
    })
}

/// So many items were handed over and came back, and so many are kept and offered.
fn tallies(
    rt: &impl Abort,
    alloc: Global,
    records: &[Record<Deed>],
    left: &[Left<u64>],
    wanted: Tally,
) {
    let base = Base::empty(alloc);
    assert_eq!(rt; reckon(&base, records, left), wanted);
}

/// This became of a ticket.
fn becomes(rt: &impl Abort, alloc: Global, records: &[Record<Deed>], own: Ticket, wanted: Fate) {
    let base = Base::empty(alloc);
    assert_eq!(rt; fate(&base, records, own), wanted);
}

/// The records at these places stay where the others are erased.
fn stay(
    rt: &impl Abort,
    alloc: Global,
    records: &[Record<Deed>],
    places: &[usize],
) -> Result<(), Fail> {
    let kept = erase(alloc, records).ok().ok_or("memory")?;
    are_at(rt, kept.as_slice(), records, places);
    Ok(())
}

/// What was kept of the records are those at these places.
fn are_at(rt: &impl Abort, kept: &[Record<Deed>], records: &[Record<Deed>], places: &[usize]) {
    assert_eq!(rt; kept.len(), places.len());
    for (index, place) in places.iter().enumerate() {
        assert_eq!(rt; kept.get(index), records.get(*place));
    }
}

#[test]
fn one_of_three_givers_expires(rt: HostRuntime) -> Result<(), Fail> {
    let alloc = rt.alloc();
    let records = [
        entry(0, 1, Deed::GiveWaits(1))?,
        entry(1, 2, Deed::GiveWaits(2))?,
        entry(2, 3, Deed::GiveWaits(3))?,
        entry(1, 2, Deed::Withdrawn(Cause::Expired))?,
        entry(3, 4, Deed::TakeMeets(1, ticket(1)?))?,
        entry(4, 5, Deed::TakeMeets(3, ticket(3)?))?,
    ];
    let tally = Tally {
        delivered: 2,
        returned: 1,
        kept: 0,
        offered: 0,
    };
    tallies(&rt, alloc, &records, &[], tally);
    stay(&rt, alloc, &records, &[0, 2, 4, 5])?;
    let expired = Fate::Withdrawn(Cause::Expired);
    becomes(&rt, alloc, &records, ticket(2)?, expired);
    becomes(&rt, alloc, &records, ticket(3)?, Fate::Paired(ticket(5)?));
    becomes(&rt, alloc, &records, ticket(6)?, Fate::Never);
    Ok(())
}

#[test]
fn a_giver_is_cut(rt: HostRuntime) -> Result<(), Fail> {
    let alloc = rt.alloc();
    let seat = SeatNo::new(0).ok_or("seat")?;
    let records = [
        entry(0, 1, Deed::GiveWaits(5))?,
        entry(1, 1, Deed::Interrupt(seat))?,
        entry(0, 1, Deed::Withdrawn(Cause::Interrupted))?,
        entry(0, 2, Deed::GiveWaits(6))?,
    ];
    becomes(&rt, alloc, &records[..2], ticket(1)?, Fate::Cut);
    let tally = Tally {
        delivered: 0,
        returned: 1,
        kept: 0,
        offered: 1,
    };
    let left = [remains(2, LeftStanding::Offered)?];
    tallies(&rt, alloc, &records, &left, tally);
    let early = Tally {
        delivered: 0,
        returned: 0,
        kept: 0,
        offered: 1,
    };
    let still = [remains(1, LeftStanding::Ready)?];
    tallies(&rt, alloc, &records[..2], &still, early);
    stay(&rt, alloc, &records, &[3])
}

#[test]
fn items_are_kept_and_wait_for_takers(rt: HostRuntime) -> Result<(), Fail> {
    let alloc = rt.alloc();
    let records = [
        entry(0, 1, Deed::GiveKept(1))?,
        entry(1, 2, Deed::GiveWaits(2))?,
        entry(2, 3, Deed::GiveFails(3))?,
        entry(3, 4, Deed::TakeMeets(1, ticket(1)?))?,
        entry(3, 5, Deed::TakeMeets(2, ticket(2)?))?,
        entry(1, 2, Deed::Done)?,
    ];
    let tally = Tally {
        delivered: 2,
        returned: 1,
        kept: 0,
        offered: 0,
    };
    tallies(&rt, alloc, &records, &[], tally);
    let four = Tally {
        delivered: 1,
        returned: 1,
        kept: 0,
        offered: 1,
    };
    let early = [remains(2, LeftStanding::Offered)?];
    tallies(&rt, alloc, &records[..4], &early, four);
    becomes(&rt, alloc, &records, ticket(1)?, Fate::Paired(ticket(4)?));
    let collected = Fate::Collected(ticket(5)?);
    becomes(&rt, alloc, &records, ticket(2)?, collected);
    stay(&rt, alloc, &records, &[0, 1, 2, 3, 4, 5])
}

#[test]
fn a_taker_waits_and_is_flagged(rt: HostRuntime) -> Result<(), Fail> {
    let alloc = rt.alloc();
    let seat = SeatNo::new(0).ok_or("seat")?;
    let records = [
        entry(0, 1, Deed::TakeWaits)?,
        entry(1, 2, Deed::GiveMeets(4, ticket(1)?))?,
        entry(2, 0, Deed::Interrupt(seat))?,
        entry(0, 1, Deed::Got(4, ticket(2)?))?,
        entry(0, 3, Deed::EntryInterrupted(Side::Taker))?,
    ];
    let early = Tally {
        delivered: 1,
        returned: 0,
        kept: 0,
        offered: 0,
    };
    let left = [remains(2, LeftStanding::Ready)?];
    tallies(&rt, alloc, &records[..2], &left, early);
    stay(&rt, alloc, &records, &[0, 1, 3])?;
    becomes(&rt, alloc, &records, ticket(3)?, Fate::EntryRefused);
    Ok(())
}
