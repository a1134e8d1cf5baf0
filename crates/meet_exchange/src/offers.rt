//! Offers: an item is posted in a free slot, or swapped for a posted one.

ghost use Rattle.std.specs.Prelude.{◌≡◌, ◌<◌, ◌≤◌, ◌+◌, ◌-◌, vec_len};
ghost use Rattle.std.specs.Vec.{vec_capacity};
ghost use Rattle.meet_tickets.specs.Limits.{last_round};
ghost use Rattle.meet_exchange.specs.Words.{code_in, number_in};
ghost use Rattle.meet_exchange.specs.Seats.{IsIdle, view_of};
ghost use Rattle.meet_exchange.specs.Calls.{Answers, Posts, Swaps, IsServed};

use crate::arena::Arena;
use crate::records::{Part, SlotDeed};
use crate::seats::{Inner, Offer, Pending, Seat};
use crate::steps::{claim, look, post, swap};
use crate::words::{FREE, POSTED, code, round};
use meet_tickets::{LAST_ROUND, Marked};

/// The result of an offer.
#[derive(Debug, Drop)]
pub enum Offered<T> {
    /// The slot was free, and the item is posted there.
    Posted(Pending<T>),
    /// An item was posted there, and is returned; the other seat may collect the one that was offered.
    Swapped(Seat<T>, T),
    /// Others were at work on the slot. The item is returned, with the word that was seen: neither free nor posted, or
    /// another than the look had seen.
    Contended(Seat<T>, T, u64),
    /// The slot is free in its last round, 2^44 - 1, so it can't be claimed. The item is returned.
    Worn(Seat<T>, T),
    /// An allocation failed. The item is returned, and the slot wasn't looked at.
    Memory(Seat<T>, T),
}

impl<T: Marked> Arena<T> {
    /// Offers an item in a slot. It looks once; if the slot is free or has an item posted, it tries once to claim it or
    /// to take that item. It first makes room for two entries in the seat's list, so that the completion doesn't
    /// allocate.
    ///
    /// # Errors
    /// The item is returned.
    /// - `Offered::Contended`, if others are at work on the slot.
    /// - `Offered::Worn`, if the slot has no round left.
    /// - `Offered::Memory`, if the seat's list can't grow.
    ///
    /// # Example
    /// From `crates/examples/src/one_thread/swapped.rt`:
    ///
    ///     match arena.offer(seat, 0, Parcel { mark, grams: 250 }) {
    ///         Offered::Posted(pending) => {
    ///             println!(rt; "seat {number} posted {mark}")?;
    ///             Ok(Back::Held(pending))
    ///         }
    ///         Offered::Swapped(seat, parcel) => {
    ///             println!(rt; "seat {number} swapped {mark} for {}", parcel.mark)?;
    ///             Ok(Back::Free(seat))
    ///         }
    pub fn offer(&self, seat: Seat<T>, slot: usize, item: T) -> Offered<T>
        requires place { seat.arena ≡ self.now.id }
        requires slot { slot < self.now.slots }
        ensures answer { Answers T.mark_of seat slot item result }
        ensures enough { 2 ≤ seat.room → IsServed result }
    {
        let mut seat = seat.open();
        if seat.list.reserve(2).is_err() {
            return Offered::Memory(Seat::new(seat), item);
        }
        let seen = look(&self.table.shared, &mut seat.token, slot);
        match code(seen) {
            FREE => self.post_item(seat, slot, seen, item),
            POSTED => self.swap_item(seat, slot, seen, item),
            _ => Offered::Contended(Seat::new(seat), item, seen),
        }
    }

    /// Posts the item in a slot that was seen free.
    fn post_item(&self, mut seat: Inner<T>, slot: usize, seen: u64, item: T) -> Offered<T>
        requires place { (seat.token.table_id ≡ self.now.id) × (slot < self.now.slots) }
        requires idle { IsIdle seat.number seat.list.items seat.token.me }
        requires room { vec_len seat.list + 2 ≤ vec_capacity seat.list }
        requires free { (code_in seen ≡ 0) × (number_in seen ≤ last_round) }
        ensures { Posts T.mark_of (view_of seat.token.table_id seat.number seat.list.items
            (vec_capacity seat.list - vec_len seat.list) seat.token.me) slot seen item result }
    {
        let round = round(seen);
        if round >= LAST_ROUND {
            return Offered::Worn(Seat::new(seat), item);
        }
        let board = &self.table.shared;
        let found = claim(board, &mut seat.token, slot, seat.number, seen);
        if found != seen {
            return Offered::Contended(Seat::new(seat), item, found);
        }
        let mark = item.mark();
        post(board, &mut seat.token, slot, seat.number, round, item);
        let deed = SlotDeed::Posted(mark);
        seat.list.push_reserved(Part { slot, round, deed });
        Offered::Posted(Pending::new(Offer {
            inner: seat,
            slot,
            round,
            mark,
        }))
    }

    /// Swaps the item for the one in a slot that was seen posted.
    fn swap_item(&self, mut seat: Inner<T>, slot: usize, seen: u64, item: T) -> Offered<T>
        requires place { (seat.token.table_id ≡ self.now.id) × (slot < self.now.slots) }
        requires idle { IsIdle seat.number seat.list.items seat.token.me }
        requires room { vec_len seat.list + 2 ≤ vec_capacity seat.list }
        requires posted { code_in seen ≡ 2 }
        ensures { Swaps T.mark_of (view_of seat.token.table_id seat.number seat.list.items
            (vec_capacity seat.list - vec_len seat.list) seat.token.me) slot seen item result }
    {
        let gave = item.mark();
        match swap(&self.table.shared, &mut seat.token, slot, seen, item) {
            Ok(other) => {
                let got = other.mark();
                let round = round(seen);
                let deed = SlotDeed::Swapped { gave, got };
                seat.list.push_reserved(Part { slot, round, deed });
                Offered::Swapped(Seat::new(seat), other)
            }
            Err((item, found)) => Offered::Contended(Seat::new(seat), item, found),
        }
    }
}
