//! Whether two bases are the same.

ghost use Rattle.std.specs.Prelude.{◌≡◌, ◌↔◌, IsTrue};

use meet_tickets::{Base, Entry, OpenCut, OpenPair, SeatNo};

/// Whether two bases are the same.
pub(super) fn is_same(base: &Base, other: &Base) -> bool
    ensures { IsTrue result ↔ (base.now ≡ other.now) }
{
    base.gone == other.gone
        && base.last == other.last
        && is_same_line(base.line.as_slice(), other.line.as_slice())
        && are_same_pairs(base.pairs.as_slice(), other.pairs.as_slice())
        && are_same_cut(base.cut.as_slice(), other.cut.as_slice())
        && are_same_flags(base.flags.as_slice(), other.flags.as_slice())
}

/// Whether two lines are the same.
fn is_same_line(line: &[Entry<u64>], other: &[Entry<u64>]) -> bool
    ensures { IsTrue result ↔ (line.now ≡ other.now) }
{
    if line.len() != other.len() {
        return false;
    }
    for (entry, beside) in line.iter().zip(other) {
        if !is_same_entry(entry, beside) {
            return false;
        }
    }
    true
}

/// Whether two entries are the same.
fn is_same_entry(entry: &Entry<u64>, other: &Entry<u64>) -> bool
    ensures { IsTrue result ↔ (entry.now ≡ other.now) }
{
    entry.ticket == other.ticket
        && entry.seat == other.seat
        && entry.item == other.item
        && entry.waits == other.waits
}

/// Whether two lists of tickets that were met are the same.
fn are_same_pairs(pairs: &[OpenPair], other: &[OpenPair]) -> bool
    ensures { IsTrue result ↔ (pairs.now ≡ other.now) }
{
    pairs == other
}

/// Whether two lists of tickets that were cut are the same.
fn are_same_cut(cut: &[OpenCut], other: &[OpenCut]) -> bool
    ensures { IsTrue result ↔ (cut.now ≡ other.now) }
{
    cut == other
}

/// Whether two lists of flagged seats are the same.
fn are_same_flags(flags: &[SeatNo], other: &[SeatNo]) -> bool
    ensures { IsTrue result ↔ (flags.now ≡ other.now) }
{
    flags == other
}
