//! What an answer tells.

use crate::parcels::{Parcel, Told};
use meet_core::{Followed, Gave, Interrupted, Offered, Polled, Put, TakenBack, Took};
use meet_queues::QueueAnswer;
use meet_tickets::{Refusal, Refused};

pub fn gave(gave: Gave<Parcel>) -> Told {
    match gave {
        Gave::Waits(own) => Told::Waits(own.number()),
        Gave::Meets(own, with) => Told::Gave(own.number(), with.number()),
        Gave::EntryInterrupted(own, item) => Told::Stopped(own.number(), Some(item.serial)),
    }
}

pub fn put(put: Put<Parcel>) -> Told {
    match put {
        Put::Kept(own) => Told::Kept(own.number()),
        Put::Meets(own, with) => Told::Gave(own.number(), with.number()),
        Put::Fails(own, item) => Told::Fails(own.number(), Some(item.serial)),
    }
}

pub fn offered(offered: Offered<Parcel>) -> Told {
    match offered {
        Offered::Meets(own, with) => Told::Gave(own.number(), with.number()),
        Offered::Fails(own, item) => Told::Fails(own.number(), Some(item.serial)),
    }
}

pub fn took(took: Took<Parcel>) -> Told {
    match took {
        Took::Waits(own) => Told::Waits(own.number()),
        Took::Meets(own, with, item) => Told::Got(own.number(), with.number(), item.serial),
        Took::EntryInterrupted(own) => Told::Stopped(own.number(), None),
    }
}

pub fn polled(polled: Polled<Parcel>) -> Told {
    match polled {
        Polled::Meets(own, with, item) => Told::Got(own.number(), with.number(), item.serial),
        Polled::Fails(own) => Told::Fails(own.number(), None),
    }
}

/// The serial number of a parcel, if one is there.
fn serial(item: Option<Parcel>) -> Option<u64> {
    item.map(|item| item.serial)
}

pub fn followed(followed: Followed<Parcel>) -> Told {
    match followed {
        Followed::Done => Told::Done,
        Followed::Got(with, item) => Told::Collected(with.number(), item.serial),
        Followed::Interrupted(item) => Told::WasCut(serial(item)),
        Followed::NotYet => Told::NotYet,
    }
}

pub fn taken_back(back: TakenBack<Parcel>) -> Told {
    match back {
        TakenBack::Back(item) => Told::Back(serial(item)),
        TakenBack::Late => Told::Late,
    }
}

pub fn interrupted(interrupted: Interrupted) -> Told {
    match interrupted {
        Interrupted::Cut(own) => Told::Cut(own.number()),
        Interrupted::Flagged => Told::Flagged,
    }
}

/// A refusal.
pub fn refused(why: Refusal) -> Told {
    Told::Refused(why, None)
}

/// A refusal that hands a parcel back.
pub fn returned(refused: Refused<Parcel>) -> Told {
    Told::Refused(refused.why, Some(refused.back.serial))
}

/// What a book of a queue answers.
pub fn queue(answer: QueueAnswer<Parcel>) -> Told {
    match answer {
        QueueAnswer::Put(answer) => put(answer),
        QueueAnswer::Gave(answer) => gave(answer),
        QueueAnswer::Offered(answer) => offered(answer),
        QueueAnswer::Took(answer) => took(answer),
        QueueAnswer::Polled(answer) => polled(answer),
        QueueAnswer::Followed(answer) => followed(answer),
        QueueAnswer::TakenBack(answer) => taken_back(answer),
        QueueAnswer::Interrupted(answer) => interrupted(answer),
    }
}
