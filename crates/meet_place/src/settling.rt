//! The end of all places that threads share.

ghost use Rattle.std.specs.Prelude.{◌≡◌, ◌+◌, ◌<◌, ◌≤◌, ◌^◌, List, length, map, IfSome, IfOk, IfErr, [], vec_len};
ghost use Rattle.std.specs.Vec.{vec_capacity};
ghost use Rattle.meet_tickets.specs.Limits.{most_seats};
ghost use Rattle.meet_book.specs.Listed.{AreListed, FirstDiffer};
ghost use Rattle.meet_place.specs.Backs.{list_of, AreOrdered, shares_in, folded_in};
ghost use Rattle.meet_place.specs.declared.seats.Back.{Back};

use crate::backs::{BareSeat, lists_of, put_in_order, put_together, take_apart};
use crate::ledgers::Ledgers;
use crate::seats::Back;
use crate::shared::Shared;
use meet_book::{Book, Object, Receipt, Same, compare};
use meet_tickets::{Record, SeatNo};
use std::alloc::Global;

/// Empty lists, each with room for the same number of seats.
#[derive(Drop)]
pub struct SeatRoom<D: Copy, N: Ledgers> {
    bares: Vec<BareSeat<D, N>>,
    backs: Vec<Back<D, N>>,
    lists: Vec<Vec<Receipt<D>>>,
    seats: usize,
    ghost bares_empty: { bares.items ≡ [] },
    ghost bares_room: { seats ≤ vec_capacity bares },
    ghost backs_empty: { backs.items ≡ [] },
    ghost backs_room: { seats ≤ vec_capacity backs },
    ghost lists_empty: { lists.items ≡ [] },
    ghost lists_room: { seats ≤ vec_capacity lists },
}

impl<D: Copy + Drop, N: Ledgers> SeatRoom<D, N> {
    /// Makes room for `seats` seats; returns None if out of memory.
    pub fn new(alloc: Global, seats: usize) -> Option<Self>
        ensures { IfSome result (λ room. room.seats ≡ seats) }
    {
        Some(SeatRoom {
            bares: Vec::with_capacity(alloc, seats).ok()?,
            backs: Vec::with_capacity(alloc, seats).ok()?,
            lists: Vec::with_capacity(alloc, seats).ok()?,
            seats,
        })
    }
}

/// What a place leaves at its end.
#[derive(Drop)]
pub struct Settled<O: Object> {
    /// The object, as it is at the end.
    pub object: O,
    /// The snapshot of the compacted records.
    pub base: O::Base,
    /// The records since, in order.
    pub records: Vec<Record<O::Deed>>,
    /// The receipts of each seat, in the order of their numbers.
    pub lists: Vec<Vec<Receipt<O::Deed>>>,
}

/// The error of a place whose records of a seat aren't those of its receipts.
#[derive(Drop)]
pub struct Unsettled<O: Object, N: Ledgers> {
    /// The least such seat.
    pub seat: SeatNo,
    /// The first index at which they differ.
    pub index: u64,
    /// The log.
    pub book: Book<O>,
    /// The seats, in the order of their numbers.
    pub seats: Vec<Back<O::Deed, N>>,
}

/// Takes all seats of a place back, and compares its records with their receipts. It doesn't allocate.
///
/// # Errors
/// - `Unsettled`, if a seat's receipts aren't its records: the book and the seats are returned.
pub fn settle<O: Object, N: Ledgers>(
    shared: Shared<O, N>,
    mut seats: Vec<Back<O::Deed, N>>,
    room: SeatRoom<O::Deed, N>,
) -> Result<Settled<O>, Unsettled<O, N>>
where
    O::Deed: Same + Drop,
    requires limit { N.parts ≤ most_seats }
    requires all { N.parts ≤ vec_len seats }
    requires room { room.seats ≡ vec_len seats }
    ensures listed { IfOk result (λ c. AreListed (O.gone_of c.base) c.records.items
        (map (λ list. list.items) c.lists.items)) }
    ensures leads { IfOk result (λ c. O.leads c.base c.records.items c.object) }
    ensures lists { IfOk result (λ c. (ordered : List (Back O.Deed N)) × AreOrdered seats.items ordered
        × (map (λ list. list.items) c.lists.items ≡ map list_of ordered)) }
    ensures count { IfOk result (λ c. vec_len c.lists ≡ N.parts) }
    ensures first { IfOk result (λ c. O.gone_of c.base ≡ 0 → c.base ≡ O.no_base) }
    ensures shares { IfOk result (λ c. O.gone_of c.base + length c.records.items ≡ shares_in seats.items) }
    ensures folded { IfOk result (λ c. O.gone_of c.base ≡ folded_in seats.items) }
    ensures few { IfOk result (λ c. O.gone_of c.base + length c.records.items < 2 ^ 64) }
    ensures cap { IfOk result (λ c. length c.records.items ≤ N.cap) }
    ensures seats { IfOk result (λ c. O.seat_count_of c.object ≡ N.parts) }
    ensures same { IfOk result (λ c. c.object ≡ shared.object) }
    ensures book { IfErr result (λ fault. fault.book ≡ shared) }
    ensures ordered { IfErr result (λ fault. AreOrdered seats.items fault.seats.items) }
    ensures total { IfErr result (λ fault. O.gone_of fault.book.base + length fault.book.records
        ≡ shares_in fault.seats.items) }
    ensures folds { IfErr result (λ fault. O.gone_of fault.book.base ≡ folded_in fault.seats.items) }
    ensures differ { IfErr result (λ fault. FirstDiffer (O.gone_of fault.book.base) fault.book.records
        (map list_of fault.seats.items) fault.seat fault.index) }
{
    let SeatRoom {
        bares,
        backs,
        lists,
        seats: _,
    } = room;
    let (book, mut total, mut rest) = shared.into_parts();
    put_in_order(&mut seats);
    let bares = take_apart(seats, &mut rest, bares);
    total.audit(&mut rest);
    let _written = book.written();
    match compare(O::gone(book.base()), book.records(), bares.as_slice()) {
        None => {}
        Some((seat, index)) => {
            return Err(Unsettled {
                seat,
                index,
                book,
                seats: put_together(bares, rest, backs),
            });
        }
    }
    let lists = lists_of(bares, lists);
    let (object, base, records) = book.into_parts();
    Ok(Settled {
        object,
        base,
        records,
        lists,
    })
}
