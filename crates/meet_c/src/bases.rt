//! A base, as structs of numbers.

ghost use Rattle.std.specs.Prelude.{◌≡◌, map, ◌++◌, slice_get};
ghost use Rattle.meet_c.specs.Rows.{side_of, mark_of, row_of_entry, row_of_pair, row_of_cut, row_of_flag, rows_of};
ghost use Rattle.meet_c.specs.Rows.{told_base};

use crate::entries::side_number;
use meet_tickets::{Base, Entry, OpenCut, OpenPair, SeatNo};

/// The snapshot of the compacted records (a base): their numbers, and how many rows state the rest.
#[repr(C)]
#[derive(Clone, Copy, PartialEq, Eq, Debug)]
pub struct PlainBase {
    /// How many records were compacted.
    pub gone: u64,
    /// The greatest ticket among them.
    pub last: u64,
    /// The rows of the wait queue.
    pub line: u64,
    /// The rows of matched pairs.
    pub pairs: u64,
    /// The rows of interrupted requests.
    pub cut: u64,
    /// The rows of pending interrupts.
    pub flags: u64,
}

/// A row of a base. What it hasn't is 0.
#[repr(C)]
#[derive(Clone, Copy, PartialEq, Eq, Debug)]
pub struct BaseRow {
    /// 1 a pending request that waits, 2 a buffered item, 3 a pending request that was matched, 4 one that was
    /// interrupted, 5 a pending interrupt.
    pub what: u64,
    /// Its seat.
    pub seat: u64,
    /// Its ticket.
    pub ticket: u64,
    /// Its side: 0 a producer, 1 a consumer.
    pub side: u64,
    /// The mark of a producer's item.
    pub mark: u64,
    /// The partner's ticket.
    pub partner: u64,
}

/// Returns the side of a request with this item: 0 for a producer, 1 for a consumer, which has none.
fn side_of(item: Option<u64>) -> u64
    ensures { result ≡ side_of item }
{
    match item {
        Some(_) => 0,
        None => 1,
    }
}

/// Returns the mark of this item, or 0.
fn mark_of(item: Option<u64>) -> u64
    ensures { result ≡ mark_of item }
{
    match item {
        Some(mark) => mark,
        None => 0,
    }
}

/// Returns the row of an entry of the wait queue.
fn row_of_entry(entry: &Entry<u64>) -> BaseRow
    ensures { result ≡ row_of_entry entry.now }
{
    let what = if entry.waits { 1 } else { 2 };
    BaseRow {
        what,
        seat: entry.seat.number(),
        ticket: entry.ticket.number(),
        side: side_of(entry.item),
        mark: mark_of(entry.item),
        partner: 0,
    }
}

/// Returns the row of a request that was matched.
fn row_of_pair(pair: &OpenPair) -> BaseRow
    ensures { result ≡ row_of_pair pair.now }
{
    BaseRow {
        what: 3,
        seat: pair.seat.number(),
        ticket: pair.ticket.number(),
        side: side_number(pair.side),
        mark: pair.mark,
        partner: pair.partner.number(),
    }
}

/// Returns the row of a request that was interrupted.
fn row_of_cut(cut: &OpenCut) -> BaseRow
    ensures { result ≡ row_of_cut cut.now }
{
    BaseRow {
        what: 4,
        seat: cut.seat.number(),
        ticket: cut.ticket.number(),
        side: side_of(cut.item),
        mark: mark_of(cut.item),
        partner: 0,
    }
}

/// Returns the row of a pending interrupt.
fn row_of_flag(seat: SeatNo) -> BaseRow
    ensures { result ≡ row_of_flag seat }
{
    BaseRow {
        what: 5,
        seat: seat.number(),
        ticket: 0,
        side: 0,
        mark: 0,
        partner: 0,
    }
}

/// Returns the base's numbers.
pub(crate) fn tell_base(base: &Base) -> PlainBase
    ensures { result ≡ told_base base.now }
{
    PlainBase {
        gone: base.gone,
        last: base.last.number(),
        line: base.line.len() as u64,
        pairs: base.pairs.len() as u64,
        cut: base.cut.len() as u64,
        flags: base.flags.len() as u64,
    }
}

/// Finds a row among those of pairs, interrupted requests and pending interrupts, by its index.
fn later_row(base: &Base, at: usize) -> Option<BaseRow>
    ensures { result ≡ slice_get (map row_of_pair base.now.pairs ++ (map row_of_cut base.now.cut
        ++ map row_of_flag base.now.flags)) at }
{
    if at < base.pairs.len() {
        return Some(row_of_pair(&base.pairs[at]));
    }
    let at = at - base.pairs.len();
    if at < base.cut.len() {
        return Some(row_of_cut(&base.cut[at]));
    }
    let at = at - base.cut.len();
    if at < base.flags.len() {
        return Some(row_of_flag(base.flags[at]));
    }
    None
}

/// Finds a row of a base by its index, from 0.
pub(crate) fn row_at(base: &Base, at: usize) -> Option<BaseRow>
    ensures { result ≡ slice_get (rows_of base.now) at }
{
    if at < base.line.len() {
        Some(row_of_entry(&base.line[at]))
    } else {
        later_row(base, at - base.line.len())
    }
}
