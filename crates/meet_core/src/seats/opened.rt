//! What a table of seats holds outside the wait queue, as a base names it.

ghost use Rattle.std.specs.Prelude.{◌≡◌, ◌<◌, ◌++◌, length, option_to_list, IfOk, IfErr, OnOk, IsPermutation};
ghost use Rattle.std.specs.List.Sorted.{IsNonDecreasingBy};
ghost use Rattle.meet_core.specs.Opened.{pair_of, cut_of, pair_at, cut_at, flagged_at, gathered};
ghost use Rattle.meet_tickets.specs.declared.refusals.Refusal.TheVariants.{Memory};

use crate::seats::SeatTable;
use meet_line::mark_of;
use meet_tickets::{Hold, Marked, OpenCut, OpenPair, Refusal, SeatNo, Side};
use std::alloc::Global;

/// What a table of seats holds outside the wait queue, as a base names it.
#[derive(Drop)]
pub struct Opened {
    /// The pending requests (open tickets) that were matched.
    pub pairs: Vec<OpenPair>,
    /// The pending requests that were interrupted.
    pub cut: Vec<OpenCut>,
    /// The seats with a pending interrupt (flagged).
    pub flags: Vec<SeatNo>,
}

/// The open ticket of a seat that was met.
fn open_pair<T: Marked>(seat: SeatNo, hold: &Hold<T>) -> Option<OpenPair>
    ensures { result ≡ pair_of T.mark_of seat hold.now }
{
    match hold {
        Hold::Handed(ticket, partner, mark) => Some(OpenPair {
            ticket: *ticket,
            seat,
            side: Side::Giver,
            partner: *partner,
            mark: *mark,
        }),
        Hold::Served(ticket, partner, item) => Some(OpenPair {
            ticket: *ticket,
            seat,
            side: Side::Taker,
            partner: *partner,
            mark: item.mark(),
        }),
        Hold::Free | Hold::Waiting(_) | Hold::Cut(_, _) => None,
    }
}

/// The open ticket of a seat that was cut.
fn open_cut<T: Marked>(seat: SeatNo, hold: &Hold<T>) -> Option<OpenCut>
    ensures { result ≡ cut_of T.mark_of seat hold.now }
{
    match hold {
        Hold::Cut(ticket, item) => Some(OpenCut {
            ticket: *ticket,
            seat,
            item: mark_of(item),
        }),
        Hold::Free | Hold::Waiting(_) | Hold::Handed(_, _, _) | Hold::Served(_, _, _) => None,
    }
}

/// The seat, where it is flagged.
fn flagged<T>(table: &SeatTable<T>, seat: SeatNo) -> Option<SeatNo>
    requires { seat < length table.now.holds }
    ensures { result ≡ flagged_at table.now seat }
{
    if table.is_flagged(seat) {
        Some(seat)
    } else {
        None
    }
}

/// Puts this behind the others, where it is something.
fn push_some<X: Copy>(list: &mut Vec<X>, item: Option<X>) -> Result<(), Refusal>
    ensures items { OnOk result (list.new.items ≡ list.old.items ++ option_to_list item) }
    ensures memory { IfErr result (λ why. why ≡ Memory) }
{
    match item {
        None => Ok(()),
        Some(item) => match list.push(item) {
            Ok(()) => Ok(()),
            Err(_) => Err(Refusal::Memory),
        },
    }
}

/// The same in the order of the seats.
fn by_seat<T: Marked>(alloc: Global, table: &SeatTable<T>) -> Result<Opened, Refusal>
    ensures pairs { IfOk result (λ opened. opened.pairs.items
        ≡ gathered (pair_at T.mark_of table.now) (length table.now.holds)) }
    ensures cut { IfOk result (λ opened. opened.cut.items
        ≡ gathered (cut_at T.mark_of table.now) (length table.now.holds)) }
    ensures flags { IfOk result (λ opened. opened.flags.items
        ≡ gathered (flagged_at table.now) (length table.now.holds)) }
    ensures seats { length table.now.flags ≡ length table.now.holds }
    ensures memory { IfErr result (λ why. why ≡ Memory) }
{
    let mut pairs = Vec::new(alloc);
    let mut cut = Vec::new(alloc);
    let mut flags = Vec::new(alloc);
    for number in 0..table.count() {
        let seat = SeatNo::new(number).unwrap();
        push_some(&mut pairs, open_pair(seat, table.hold(seat)))?;
        push_some(&mut cut, open_cut(seat, table.hold(seat)))?;
        push_some(&mut flags, flagged(table, seat))?;
    }
    Ok(Opened { pairs, cut, flags })
}

/// Returns what a table of seats holds outside the wait queue, as a base names it. These are the pending requests that
/// were matched and those that were interrupted, each by rising ticket, and the flagged seats, rising. An item is named
/// by its mark. It looks at every seat.
///
/// # Errors
/// - Memory, if an allocation fails.
pub fn open_tickets<T: Marked>(alloc: Global, table: &SeatTable<T>) -> Result<Opened, Refusal>
    ensures pairs { IfOk result (λ opened. IsPermutation
        (gathered (pair_at T.mark_of table.now) (length table.now.holds)) opened.pairs.items) }
    ensures pairs_rise { IfOk result (λ opened. IsNonDecreasingBy (λ p. p.ticket) opened.pairs.items) }
    ensures cut { IfOk result (λ opened. IsPermutation
        (gathered (cut_at T.mark_of table.now) (length table.now.holds)) opened.cut.items) }
    ensures cut_rises { IfOk result (λ opened. IsNonDecreasingBy (λ c. c.ticket) opened.cut.items) }
    ensures flags { IfOk result (λ opened. opened.flags.items
        ≡ gathered (flagged_at table.now) (length table.now.holds)) }
    ensures seats { length table.now.flags ≡ length table.now.holds }
    ensures memory { IfErr result (λ why. why ≡ Memory) }
{
    let mut opened = by_seat(alloc, table)?;
    opened.pairs.sort_unstable_by_key(|pair| pair.ticket);
    opened.cut.sort_unstable_by_key(|cut| cut.ticket);
    Ok(opened)
}
