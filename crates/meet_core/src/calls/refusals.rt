//! Why a completion or an interrupt of a queue fails.

ghost use Rattle.std.specs.Prelude.{◌≡◌, ◌≢◌, Some, None, IfOk, IfErr};
ghost use Rattle.meet_tickets.specs.declared.refusals.Refusal.TheVariants.{Memory, HistoryFull};
ghost use Rattle.meet_tickets.specs.Refusals.{refusal_unless, absent_refusal};

use meet_tickets::{Refusal, SeatNo, Ticket};

/// An ending of this ticket, where this one is open.
pub(crate) fn ending(opened: Option<Ticket>, ticket: Ticket) -> Result<(), Refusal>
    ensures admitted { IfOk result (λ _. refusal_unless opened ticket ≡ None) }
    ensures why { IfErr result (λ why. refusal_unless opened ticket ≡ Some why) }
    ensures own { IfErr result (λ why. (why ≢ Memory) × (why ≢ HistoryFull)) }
{
    match opened {
        None => Err(Refusal::NotOpen),
        Some(own) => {
            if own.number() == ticket.number() {
                Ok(())
            } else {
                Err(Refusal::NotOpen)
            }
        }
    }
}

/// An interrupt of this target, where there are so many seats.
pub(crate) fn interrupt(seats: u64, seat: SeatNo, target: SeatNo) -> Result<(), Refusal>
    ensures admitted { IfOk result (λ _. absent_refusal seats seat target ≡ None) }
    ensures why { IfErr result (λ why. absent_refusal seats seat target ≡ Some why) }
    ensures own { IfErr result (λ why. (why ≢ Memory) × (why ≢ HistoryFull)) }
{
    if seats <= seat.number() || seats <= target.number() {
        Err(Refusal::NoSuchSeat)
    } else {
        Ok(())
    }
}
