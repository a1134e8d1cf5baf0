//! The completions of an offer that stands: the other seat's item is collected, or its own is taken back.

ghost use Rattle.std.specs.Prelude.{◌≡◌, ◌<◌};
ghost use Rattle.meet_exchange.specs.Calls.{Collects, Withdraws};
ghost use Rattle.meet_exchange.specs.Waits.{Gathers};

use crate::arena::Arena;
use crate::records::{Part, SlotDeed};
use crate::seats::{Offer, Pending, Seat};
use crate::steps::{collect, find, gain, withdraw};
use crate::words::{ANSWERED, code};
use meet_tickets::Marked;

/// The result of a collect.
#[derive(Debug, Drop)]
pub enum Gathered<T> {
    /// The other seat's item.
    Got(Seat<T>, T),
    /// No other seat has answered yet.
    NotYet(Pending<T>),
}

/// The result of a withdrawal.
#[derive(Debug, Drop)]
pub enum TakenBack<T> {
    /// The seat's own item is returned.
    Back(Seat<T>, T),
    /// Another seat has taken it, and its own can be collected, now or soon.
    Late(Pending<T>),
}

impl<T: Marked> Arena<T> {
    /// Collects the item that another seat gave for this one's, if it did. It is one step, and doesn't allocate.
    pub fn collect(&self, pending: Pending<T>) -> Gathered<T>
        requires place { pending.seat.arena ≡ self.now.id }
        requires slot { pending.slot < self.now.slots }
        ensures { Collects T.mark_of pending.seat pending.slot pending.round pending.mark result }
    {
        let Offer {
            inner: mut seat,
            slot,
            round,
            mark,
        } = pending.open();
        let board = &self.table.shared;
        match collect(board, &mut seat.token, slot, seat.number, round, mark) {
            Ok(item) => {
                let got = item.mark();
                let deed = SlotDeed::Collected { got };
                seat.list.push_reserved(Part { slot, round, deed });
                Gathered::Got(Seat::new(seat), item)
            }
            Err(_) => Gathered::NotYet(Pending::new(Offer {
                inner: seat,
                slot,
                round,
                mark,
            })),
        }
    }

    /// Looks for the answer to an offer, and collects it where it sees one.
    pub(crate) fn look_for(&self, pending: Pending<T>) -> Gathered<T>
        requires place { pending.seat.arena ≡ self.now.id }
        requires slot { pending.slot < self.now.slots }
        ensures { Gathers T.mark_of pending.seat pending.slot pending.round pending.mark result }
    {
        let Offer {
            inner: mut seat,
            slot,
            round,
            mark,
        } = pending.open();
        let board = &self.table.shared;
        let seen = find(board, &mut seat.token, slot, round, mark);
        if code(seen) != ANSWERED {
            return Gathered::NotYet(Pending::new(Offer {
                inner: seat,
                slot,
                round,
                mark,
            }));
        }
        let item = gain(board, &mut seat.token, slot, seat.number, round, mark);
        let got = item.mark();
        let deed = SlotDeed::Collected { got };
        seat.list.push_reserved(Part { slot, round, deed });
        Gathered::Got(Seat::new(seat), item)
    }

    /// Takes this seat's item back, unless another seat has taken it. It is one step, and doesn't allocate.
    pub fn withdraw(&self, pending: Pending<T>) -> TakenBack<T>
        requires place { pending.seat.arena ≡ self.now.id }
        requires slot { pending.slot < self.now.slots }
        ensures { Withdraws T.mark_of pending.seat pending.slot pending.round pending.mark result }
    {
        let Offer {
            inner: mut seat,
            slot,
            round,
            mark,
        } = pending.open();
        let board = &self.table.shared;
        match withdraw(board, &mut seat.token, slot, seat.number, round, mark) {
            Ok(item) => {
                let deed = SlotDeed::Withdrawn;
                seat.list.push_reserved(Part { slot, round, deed });
                TakenBack::Back(Seat::new(seat), item)
            }
            Err(_) => TakenBack::Late(Pending::new(Offer {
                inner: seat,
                slot,
                round,
                mark,
            })),
        }
    }
}
