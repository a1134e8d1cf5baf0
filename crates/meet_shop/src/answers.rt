//! What an answer tells, and the seat that comes back with it.

use crate::asks::Told;
use meet_sync::{
    Answer, Asked, Back, End, Ended, Followed, Interrupted, Ledgers, Pending, Seat, SeatRefused,
    TakenBack,
};
use meet_tickets::Deed;

/// A seat, and what it was told.
pub type Came<N> = (Back<Deed, N>, Told);

fn answered(answer: Answer<u64>) -> Told {
    match answer {
        Answer::Gave(with) => Told::Gave(with.number()),
        Answer::Got(with, item) => Told::Got(with.number(), item),
        Answer::Failed(back) => Told::Failed(back),
        Answer::Kept => Told::Kept,
        Answer::EntryInterrupted(back) => Told::Stopped(back),
    }
}

fn refused<N: Ledgers>(refused: SeatRefused<u64, N>) -> Came<N> {
    let SeatRefused { why, seat, item } = refused;
    (Back::Free(seat), Told::Refused(why, item))
}

fn parked<N: Ledgers>(pending: Pending<Deed, N>) -> Came<N> {
    let ticket = pending.ticket().number();
    (Back::Held(pending), Told::Parks(ticket))
}

fn settled<N: Ledgers>(asked: Asked<u64, N>) -> Came<N> {
    match asked {
        Asked::Settled(seat, answer) => (Back::Free(seat), answered(answer)),
        Asked::Parked(pending) => parked(pending),
    }
}

/// What came of a request.
pub fn asked<N: Ledgers>(asked: Result<Asked<u64, N>, SeatRefused<u64, N>>) -> Came<N> {
    match asked {
        Ok(asked) => settled(asked),
        Err(why) => refused(why),
    }
}

fn ended(end: End<u64>) -> Told {
    match end {
        End::Gave(with) => Told::Gave(with.number()),
        End::Got(with, item) => Told::Got(with.number(), item),
        End::Failed(back) => Told::Failed(back),
        End::Kept => Told::Kept,
        End::EntryInterrupted(back) => Told::Stopped(back),
        End::Done => Told::Done,
        End::Interrupted(back) => Told::WasCut(back),
        End::TimedOut(back) => Told::TimedOut(back),
    }
}

/// What came of a whole call.
pub fn whole<N: Ledgers>(whole: Result<Ended<u64, N>, SeatRefused<u64, N>>) -> Came<N> {
    match whole {
        Ok(whole) => {
            let Ended { seat, end } = whole;
            (Back::Free(seat), ended(end))
        }
        Err(why) => refused(why),
    }
}

/// What came of a follow-up.
pub fn followed<N: Ledgers>(followed: Followed<u64, N>) -> Came<N> {
    match followed {
        Followed::Done(seat) => (Back::Free(seat), Told::Done),
        Followed::Got(seat, with, item) => (Back::Free(seat), Told::Got(with.number(), item)),
        Followed::Interrupted(seat, back) => (Back::Free(seat), Told::WasCut(back)),
        Followed::NotYet(pending) => (Back::Held(pending), Told::NotYet),
    }
}

/// What came of a cancel or an expiry.
pub fn withdrawn<N: Ledgers>(withdrawn: TakenBack<u64, N>) -> Came<N> {
    match withdrawn {
        TakenBack::Back(seat, back) => (Back::Free(seat), Told::Back(back)),
        TakenBack::Late(pending) => (Back::Held(pending), Told::Late),
    }
}

fn hit<N: Ledgers>(interrupted: Interrupted<N>) -> Came<N> {
    match interrupted {
        Interrupted::Cut(seat, ticket) => (Back::Free(seat), Told::Cut(ticket.number())),
        Interrupted::Flagged(seat) => (Back::Free(seat), Told::Flagged),
    }
}

/// What came of an interrupt.
pub fn interrupted<N: Ledgers>(
    interrupted: Result<Interrupted<N>, SeatRefused<u64, N>>,
) -> Came<N> {
    match interrupted {
        Ok(interrupted) => hit(interrupted),
        Err(why) => refused(why),
    }
}
