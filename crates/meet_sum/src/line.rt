//! How long the wait queue is, and where it was longest.

ghost use Rattle.std.specs.Prelude.{◌≡◌, ◌+◌, ◌<◌, ◌≤◌, ◌^◌, length};
ghost use Rattle.meet_tickets.specs.declared.places.Kind.{Kind};
ghost use Rattle.meet_tickets.specs.BySeat.{Moment, Fits, moment_after};
ghost use Rattle.meet_sum.specs.Lines.{FindsLongestLine, IsNumbered};

use meet_tickets::{Base, Cause, Deed, Record};

/// The longest wait queue after any record.
#[derive(Clone, Copy, PartialEq, Eq, Debug)]
pub struct LongestLine {
    /// Its nodes.
    pub entries: u64,
    /// The number of the first record after which it had as many; those of the base count.
    pub behind: u64,
}

/// How many nodes the wait queue has after one record more, which is legal there.
fn line_after(line: u64, entry: &Record<Deed>) -> u64
    requires { line + 1 < 2 ^ 64 }
    ensures after { (k : Kind) (m : Moment) → line ≡ length m.seats.line → Fits k m entry.now → IsNumbered m
        → result ≡ length (moment_after k m entry.now).seats.line }
    ensures most { result ≤ line + 1 }
{
    match entry.deed {
        Deed::GiveWaits(_) => line + 1,
        Deed::GiveKept(_) => line + 1,
        Deed::TakeWaits => line + 1,
        Deed::GiveMeets(_, _) => line.saturating_sub(1),
        Deed::TakeMeets(_, _) => line.saturating_sub(1),
        Deed::Withdrawn(cause) => match cause {
            Cause::Cancelled => line.saturating_sub(1),
            Cause::Expired => line.saturating_sub(1),
            Cause::Interrupted => line,
        },
        Deed::Interrupt(_) => {
            if entry.ticket.number() > 0 {
                line.saturating_sub(1)
            } else {
                line
            }
        }
        _ => line,
    }
}

/// Returns the longest wait queue after a base and after any of the records since, which are legal. It doesn't
/// allocate, and reads each record once.
pub fn longest_line(base: &Base, records: &[Record<Deed>]) -> LongestLine
    requires entries { length base.now.line + length records.now < 2 ^ 64 }
    requires numbers { base.now.gone + length records.now < 2 ^ 64 }
    ensures { FindsLongestLine base.now records.now result }
{
    let mut line = base.line.len() as u64;
    let mut longest = LongestLine {
        entries: line,
        behind: base.gone,
    };
    let mut behind = base.gone;
    for entry in records {
        behind += 1;
        line = line_after(line, entry);
        if line > longest.entries {
            longest = LongestLine {
                entries: line,
                behind,
            };
        }
    }
    longest
}
