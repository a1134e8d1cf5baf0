//! What a chronicle tells of its tickets: each give counts once, by its fate, and what is left once it is erased is
//! legal.

use crate::unlike::Unlike;
use meet_history::check;
use meet_sync::{Chronicle, Tally};
use meet_tickets::{Base, Deed, Fate, Kind, Side};
use std::alloc::Global;

/// No give.
const NONE: Tally = Tally {
    delivered: 0,
    returned: 0,
    kept: 0,
    offered: 0,
};

/// A tally where one more give has this fate.
fn with(tally: Tally, fate: Fate) -> Tally {
    let Tally {
        delivered,
        returned,
        kept,
        offered,
    } = tally;
    match fate {
        Fate::Paired(_) | Fate::Collected(_) => Tally {
            delivered: delivered.wrapping_add(1),
            ..tally
        },
        Fate::Failed | Fate::EntryRefused | Fate::Withdrawn(_) => Tally {
            returned: returned.wrapping_add(1),
            ..tally
        },
        Fate::Kept => Tally {
            kept: kept.wrapping_add(1),
            ..tally
        },
        Fate::Waiting | Fate::Cut => Tally {
            offered: offered.wrapping_add(1),
            ..tally
        },
        Fate::Never | Fate::Past => tally,
    }
}

/// Whether a deed asks to give.
fn gives(deed: Deed) -> bool {
    matches!(
        deed,
        Deed::GiveWaits(_)
            | Deed::GiveMeets(_, _)
            | Deed::GiveFails(_)
            | Deed::GiveKept(_)
            | Deed::EntryInterrupted(Side::Giver)
    )
}

/// How many records there are at most of which each fate is asked.
const FEW: usize = 200;

/// The tally of its gives' fates.
fn counted(chronicle: &Chronicle<u64>) -> Tally {
    let mut tally = NONE;
    for entry in chronicle.records.iter() {
        if gives(entry.deed) {
            tally = with(tally, chronicle.fate(entry.ticket));
        }
    }
    tally
}

/// The tally of a chronicle is that of its gives' fates, where its records are few, and what is left once it is erased
/// is legal, where there is memory for it.
pub fn obeys(alloc: Global, chronicle: &Chronicle<u64>, kind: Kind) -> Result<(), Unlike> {
    let tally = chronicle.laws();
    if chronicle.records.len() <= FEW && tally != counted(chronicle) {
        return Err(Unlike::Counted(tally));
    }
    if let Ok(staying) = chronicle.erased(alloc) {
        let is_legal = check(alloc, kind, &Base::empty(alloc), staying.as_slice()).is_ok();
        if staying.len() > chronicle.records.len() || !is_legal {
            return Err(Unlike::Erased(staying.len()));
        }
    }
    Ok(())
}
