//! Bells that are rung, by one thread and by two.

ghost use Rattle.std.specs.Prelude.{◌≡◌, Some, IfSome};

use meet_cells::{Bell, Envelope, Note, Verdict, notes_agree};
use meet_tickets::{Refusal, Ticket};
use std::alloc::Global;
use std::test::*;
use std::thread;
use std::thread::Threads;

/// A verdict on the ticket of this number.
fn verdict_on(number: u64, met: bool) -> Result<Verdict, &'static str> {
    let ticket = Ticket::new(number).ok_or("ticket")?;
    Ok(Verdict { ticket, met })
}

/// An envelope with this verdict.
fn sealed(alloc: Global, verdict: Verdict) -> Result<Envelope, Refusal> {
    let mut envelope = Envelope::new(alloc)?;
    envelope.fill(verdict);
    Ok(envelope)
}

/// What a bell was rung with, as far as a new note can know; and the verdict of an envelope that comes back.
fn rings(bell: &Bell, envelope: Envelope) -> (Option<Verdict>, Option<Verdict>) {
    let mut note = bell.note();
    let back = match bell.ring(envelope, &mut note) {
        Ok(()) => None,
        Err(back) => Some(back.verdict()),
    };
    (bell.read(&mut note), back)
}

/// What a new note finds.
fn reads(bell: &Bell) -> Option<Verdict> {
    let mut note = bell.note();
    bell.read(&mut note)
}

#[test]
fn a_bell_is_rung_once(rt: HostRuntime) -> Result<(), Fail> {
    let alloc = rt.alloc();
    let met = verdict_on(7, true)?;
    let cut = verdict_on(7, false)?;
    let bell = Bell::new(alloc, met.ticket);
    assert_eq!(rt; bell.ticket().number(), 7);
    assert_eq!(rt; reads(&bell), None);
    assert_eq!(rt; rings(&bell, sealed(alloc, met)?), (Some(met), None));
    assert_eq!(rt; reads(&bell), Some(met));
    assert_eq!(rt; rings(&bell, sealed(alloc, cut)?), (Some(met), Some(cut)));
    assert_eq!(rt; reads(&bell), Some(met));
    Ok(())
}

#[test]
fn a_bell_is_of_one_ticket(rt: HostRuntime) -> Result<(), Fail> {
    let alloc = rt.alloc();
    let own = verdict_on(7, false)?;
    let other = verdict_on(8, false)?;
    let none = verdict_on(0, false)?;
    let bell = Bell::new(alloc, own.ticket);
    assert_eq!(rt; rings(&bell, Envelope::new(alloc)?), (None, Some(none)));
    let mut note = bell.note();
    let Err(mut envelope) = bell.ring(sealed(alloc, other)?, &mut note) else {
        return Err("a bell of another ticket was rung".into());
    };
    assert_eq!(rt; bell.read(&mut note), None);
    envelope.fill(own);
    assert_eq!(rt; rings(&bell, envelope), (Some(own), None));
    Ok(())
}

/// What a thread heard of a bell, and its note.
#[derive(Drop)]
struct Heard {
    verdict: Option<Verdict>,
    note: Note<Verdict>,
}

/// Rings a bell, and hears what it was rung with.
fn hears(bell: &Bell, envelope: Envelope) -> Heard
    ensures cell { result.note.cell ≡ bell.now.cell }
    ensures known { IfSome result.verdict (λ verdict. result.note.known ≡ Some verdict) }
{
    let mut note = bell.note();
    let _back = bell.ring(envelope, &mut note);
    Heard {
        verdict: bell.read(&mut note),
        note,
    }
}

/// Two threads ring one bell, each with a verdict of its own, and what both hear is one verdict.
fn both_hear<R: Threads + Sync>(
    rt: &R,
    bell: &Bell,
    one: Envelope,
    two: Envelope,
) -> (Option<Verdict>, Option<Verdict>)
    ensures { IfSome result.1 (λ second. IfSome result.0 (λ first. first ≡ second)) }
{
    let (mut first, mut second) = thread::join(
        rt,
        move || -> Heard
            ensures cell { result.note.cell ≡ bell.entry.now.cell }
            ensures known { IfSome result.verdict (λ verdict. result.note.known ≡ Some verdict) }
        { hears(bell, one) },
        move || -> Heard
            ensures cell { result.note.cell ≡ bell.entry.now.cell }
            ensures known { IfSome result.verdict (λ verdict. result.note.known ≡ Some verdict) }
        { hears(bell, two) },
    );
    notes_agree(&mut first.note, &mut second.note);
    (first.verdict, second.verdict)
}

#[test]
fn two_threads_hear_one_verdict(rt: HostRuntime) -> Result<(), Fail> {
    let alloc = rt.alloc();
    let met = verdict_on(7, true)?;
    let cut = verdict_on(7, false)?;
    for _ in 0..200u64 {
        let bell = Bell::new(alloc, met.ticket);
        let (first, second) = both_hear(&rt, &bell, sealed(alloc, met)?, sealed(alloc, cut)?);
        assert!(rt; first.is_some());
        assert_eq!(rt; first, second);
        assert_eq!(rt; reads(&bell), first);
    }
    Ok(())
}
