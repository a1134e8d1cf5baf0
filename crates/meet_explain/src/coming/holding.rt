//! What a base states of a seat, and which entry a request would meet there.

ghost use Rattle.std.specs.Prelude.{◌≡◌, option_map};
ghost use Rattle.std.specs.Option.{option_map_or};
ghost use Rattle.meet_tickets.specs.Bases.{hold_met, moment_of_base};
ghost use Rattle.meet_tickets.specs.BySeat.{cut_ticket};
ghost use Rattle.meet_tickets.specs.declared.lines.Hold.TheVariants.{Cut};
ghost use Rattle.meet_explain.specs.Holding.{waiting_of, paired_of, cut_of, hold_of, whom};

use meet_tickets::{Base, Entry, Hold, Kind, OpenCut, OpenPair, SeatNo, Side, Ticket};

/// The ticket with which a seat waits in a wait queue.
fn waiting(line: &[Entry<u64>], seat: SeatNo) -> Option<Ticket>
    ensures { result ≡ option_map (λ e. e.ticket) (waiting_of line.now seat) }
{
    match line.iter().find(|entry| entry.waits && entry.seat == seat) {
        Some(entry) => Some(entry.ticket),
        None => None,
    }
}

/// What a seat holds whose ticket was matched.
fn hold_met(pair: OpenPair) -> Hold<u64>
    ensures { result ≡ hold_met pair.side pair.ticket pair.partner pair.mark }
{
    match pair.side {
        Side::Giver => Hold::Handed(pair.ticket, pair.partner, pair.mark),
        Side::Taker => Hold::Served(pair.ticket, pair.partner, pair.mark),
    }
}

/// What the seat holds whose open ticket was matched.
fn paired(pairs: &[OpenPair], seat: SeatNo) -> Option<Hold<u64>>
    ensures { result ≡ option_map (λ p. hold_met p.side p.ticket p.partner p.mark) (paired_of pairs.now seat) }
{
    match pairs.iter().find(|pair| pair.seat == seat) {
        Some(pair) => Some(hold_met(*pair)),
        None => None,
    }
}

/// What the seat holds whose open ticket was interrupted.
fn cut(gone: &[OpenCut], seat: SeatNo) -> Option<Hold<u64>>
    ensures { result ≡ option_map (λ c. Cut c.ticket c.item) (cut_of gone.now seat) }
{
    match gone.iter().find(|cut| cut.seat == seat) {
        Some(cut) => Some(Hold::Cut(cut.ticket, cut.item)),
        None => None,
    }
}

/// What a seat has open, looked up in a base's three lists.
fn held(base: &Base, seat: SeatNo) -> Hold<u64>
    ensures { result ≡ hold_of base.now seat }
{
    if let Some(ticket) = waiting(base.line.as_slice(), seat) {
        return Hold::Waiting(ticket);
    }
    if let Some(hold) = paired(base.pairs.as_slice(), seat) {
        return hold;
    }
    match cut(base.cut.as_slice(), seat) {
        Some(hold) => hold,
        None => Hold::Free,
    }
}

/// Returns what a seat has open after a base.
pub fn hold(base: &Base, seat: SeatNo) -> Hold<u64>
    ensures { result ≡ (moment_of_base base.now).seats.holds seat }
{
    held(base, seat)
}

/// The ticket with which a seat waits in a wait queue, by its number; 0 if it doesn't.
fn number_waiting(line: &[Entry<u64>], seat: SeatNo) -> u64
    ensures { result ≡ option_map_or (λ e. e.ticket) (waiting_of line.now seat) 0 }
{
    match waiting(line, seat) {
        Some(ticket) => ticket.number(),
        None => 0,
    }
}

/// Returns the ticket that an interrupt of this seat ends after a base; 0 if the seat doesn't wait, so that its
/// interrupt becomes pending.
pub fn cut_by(base: &Base, target: SeatNo) -> u64
    ensures { result ≡ cut_ticket (moment_of_base base.now).seats target }
{
    number_waiting(base.line.as_slice(), target)
}

/// Whether a seat has a pending interrupt after a base.
pub(crate) fn is_flagged(base: &Base, seat: SeatNo) -> bool
    ensures { result ≡ (moment_of_base base.now).seats.flags seat }
{
    base.flags.iter().any(|flagged| *flagged == seat)
}

/// The ticket and the item of the entry that a request of this side would meet.
pub(crate) fn whom(kind: Kind, base: &Base, side: Side) -> Option<(Ticket, Option<u64>)>
    ensures { result ≡ whom kind base.now.line side }
{
    match kind.partner(base.line.as_slice(), side) {
        Some(met) => Some((met.ticket, met.item)),
        None => None,
    }
}
