//! Results as lines on standard output.

use crate::parcels::passing::Parcel;
use anyhow::Result;
use meet_core::{Followed, Gave, Interrupted, Offered, Put, TakenBack, Took};
use meet_tickets::Ticket;

/// Prints the result of a give, and returns its ticket.
pub fn tell_gave(rt: &HostRuntime, gave: Gave<Parcel>) -> Result<Ticket> {
    match gave {
        Gave::Waits(own) => {
            println!(rt; "t{} waits", own.number())?;
            Ok(own)
        }
        Gave::Meets(own, with) => {
            println!(rt; "t{} gave to t{}", own.number(), with.number())?;
            Ok(own)
        }
        Gave::EntryInterrupted(own, back) => {
            println!(rt;
                "t{} was interrupted and has {} back",
                own.number(),
                back.mark
            )?;
            Ok(own)
        }
    }
}

/// Prints the result of a take.
pub fn tell_took(rt: &HostRuntime, took: Took<Parcel>) -> Result<()> {
    match took {
        Took::Waits(own) => println!(rt; "t{} waits", own.number())?,
        Took::Meets(own, with, item) => {
            println!(rt;
                "t{} got {} of {} g from t{}",
                own.number(),
                item.mark,
                item.grams,
                with.number()
            )?;
        }
        Took::EntryInterrupted(own) => println!(rt; "t{} was interrupted", own.number())?,
    }
    Ok(())
}

/// Prints the result of a follow-up.
pub fn tell_followed(rt: &HostRuntime, followed: Followed<Parcel>) -> Result<()> {
    match followed {
        Followed::Done => println!(rt; "done")?,
        Followed::Got(with, item) => println!(rt; "got {} from t{}", item.mark, with.number())?,
        Followed::Interrupted(back) => println!(rt;
            "interrupted, {} items back",
            back.iter().count()
        )?,
        Followed::NotYet => println!(rt; "not yet")?,
    }
    Ok(())
}

/// Prints the result of a cancel.
pub fn tell_back(rt: &HostRuntime, back: TakenBack<Parcel>) -> Result<()> {
    match back {
        TakenBack::Back(Some(item)) => println!(rt; "took {} back", item.mark)?,
        TakenBack::Back(None) => println!(rt; "took a take back")?,
        TakenBack::Late => println!(rt; "too late")?,
    }
    Ok(())
}

/// Prints the result of an interrupt.
pub fn tell_interrupted(rt: &HostRuntime, interrupted: Interrupted) -> Result<()> {
    match interrupted {
        Interrupted::Cut(ticket) => println!(rt; "t{} was cut", ticket.number())?,
        Interrupted::Flagged => println!(rt; "flagged")?,
    }
    Ok(())
}

/// Prints the result of a put.
pub fn tell_put(rt: &HostRuntime, put: Put<Parcel>) -> Result<()> {
    match put {
        Put::Kept(own) => println!(rt; "t{} is kept", own.number())?,
        Put::Meets(own, with) => println!(rt; "t{} gave to t{}", own.number(), with.number())?,
        Put::Fails(own, back) => println!(rt;
            "t{} failed and has {} back",
            own.number(),
            back.mark
        )?,
    }
    Ok(())
}

/// Prints the result of an immediate transfer.
pub fn tell_offered(rt: &HostRuntime, offered: Offered<Parcel>) -> Result<()> {
    match offered {
        Offered::Meets(own, with) => println!(rt; "t{} gave to t{}", own.number(), with.number())?,
        Offered::Fails(own, back) => println!(rt;
            "t{} failed and has {} back",
            own.number(),
            back.mark
        )?,
    }
    Ok(())
}

/// Prints what a poll got.
pub fn tell_taken(rt: &HostRuntime, taken: Option<Parcel>) -> Result<()> {
    match taken {
        Some(parcel) => println!(rt; "polled {}", parcel.mark)?,
        None => println!(rt; "nobody gives")?,
    }
    Ok(())
}
