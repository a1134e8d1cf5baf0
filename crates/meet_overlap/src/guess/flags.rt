//! When seats are flagged, as interrupts that cut no call leave them.

use crate::calls::{Answer, Call, Verb};
use crate::guess::partners::{Partners, end};
use std::alloc::{AllocError, Global};

/// A time during which a seat is flagged, and the interrupt that flags it.
#[derive(Clone, Copy, PartialEq, Eq, PartialOrd, Ord)]
pub(crate) struct Flag {
    pub(crate) seat: u64,
    pub(crate) from: u64,
    pub(crate) until: u64,
    pub(crate) number: usize,
}

/// When which seats are flagged.
#[derive(Drop)]
pub(crate) struct Flags {
    pub(crate) flags: Vec<Flag>,
}

/// A call that was interrupted at its entry.
#[derive(Clone, Copy, PartialEq, Eq, PartialOrd, Ord)]
struct Entry {
    seat: u64,
    begin: u64,
}

/// Whether a call was interrupted at its entry: it answers so, and no interrupt cut it.
fn is_refused(calls: &[Call], partners: &Partners, number: usize) -> bool {
    if number >= calls.len() || partners.of(number).is_some() {
        return false;
    }
    match calls[number].returned {
        None => false,
        Some(returned) => returned.answer == Answer::Interrupted,
    }
}

/// The calls that were interrupted at their entry, by their seats and begins.
fn entries(alloc: Global, calls: &[Call], partners: &Partners) -> Result<Vec<Entry>, AllocError> {
    let mut entries = Vec::new(alloc);
    for number in 0..calls.len() {
        if is_refused(calls, partners, number) {
            entries.push(Entry {
                seat: calls[number].seat.number(),
                begin: calls[number].begin,
            })?;
        }
    }
    entries.sort_unstable();
    Ok(entries)
}

/// When an interrupt of this seat that cut nothing flags it: as late as it can, but before the seat's next call that
/// was interrupted at its entry.
fn flagged(entries: &[Entry], seat: u64, call: &Call, number: usize) -> Flag {
    let sought = Entry {
        seat,
        begin: call.begin,
    };
    let next = entries.partition_point(|entry| *entry < sought);
    let until = if next < entries.len() && entries[next].seat == seat {
        entries[next].begin
    } else {
        u64::MAX
    };
    Flag {
        seat,
        from: end(call).min(until),
        until,
        number,
    }
}

impl Flags {
    /// When seats are flagged by interrupts that cut nothing. Fails only if an allocation fails.
    pub(crate) fn of(
        alloc: Global,
        calls: &[Call],
        partners: &Partners,
    ) -> Result<Flags, AllocError> {
        let entries = entries(alloc, calls, partners)?;
        let mut flags: Vec<Flag> = Vec::new(alloc);
        for number in 0..calls.len() {
            let call = &calls[number];
            if let Verb::Interrupt(seat) = call.verb {
                if partners.of(number).is_none() && call.returned.is_some() {
                    flags.push(flagged(&entries, seat.number(), call, number))?;
                }
            }
        }
        flags.sort_unstable();
        Ok(Flags { flags })
    }

    /// Whether a seat is flagged at this time.
    pub(crate) fn has(&self, seat: u64, at: u64) -> bool {
        let sought = Flag {
            seat,
            from: at,
            until: u64::MAX,
            number: usize::MAX,
        };
        let behind = self.flags.partition_point(|flag| *flag < sought);
        if behind == 0 || self.flags.len() < behind {
            return false;
        }
        let flag = self.flags[behind - 1];
        flag.seat == seat && at <= flag.until
    }
}
