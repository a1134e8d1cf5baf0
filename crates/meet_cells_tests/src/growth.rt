//! An envelope bears one refusal of memory: the call that is made again succeeds, and ringing and reading take none.
//! `dev/check/refuse` runs this test with each allocation refused in turn.

use meet_cells::{Bell, Envelope, Verdict};
use meet_tickets::{Refusal, Ticket};
use std::alloc::Global;
use std::process::Abort;
use std::test::*;

/// An envelope, at the second try where there was no memory at first.
fn made(rt: &impl Abort, alloc: Global) -> Result<Envelope, Refusal> {
    match Envelope::new(alloc) {
        Ok(envelope) => Ok(envelope),
        Err(why) => {
            assert!(rt; why == Refusal::Memory);
            Envelope::new(alloc)
        }
    }
}

/// An envelope with a verdict on this ticket.
fn sealed(rt: &impl Abort, alloc: Global, ticket: Ticket, met: bool) -> Result<Envelope, Refusal> {
    let mut envelope = made(rt, alloc)?;
    envelope.fill(Verdict { ticket, met });
    Ok(envelope)
}

#[test]
fn a_bell_lives(rt: HostRuntime) -> Result<(), Fail> {
    let alloc = rt.alloc();
    let ticket = Ticket::new(7).ok_or("ticket")?;
    let first = sealed(&rt, alloc, ticket, true)?;
    let second = sealed(&rt, alloc, ticket, false)?;
    let bell = Bell::new(alloc, ticket);
    let mut note = bell.note();
    assert!(rt; bell.ring(first, &mut note).is_ok());
    assert!(rt; bell.ring(second, &mut note).is_err());
    assert_eq!(rt; bell.read(&mut note), Some(Verdict { ticket, met: true }));
    Ok(())
}
