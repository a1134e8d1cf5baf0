//! Which seats are missing if a place isn't closed.

ghost use Rattle.std.specs.Prelude.{◌≡◌, IfOk, IfErr};
ghost use Rattle.meet_tickets.specs.declared.refusals.Refusal.TheVariants.{Memory};
ghost use Rattle.meet_place.specs.Backs.{is_back, missing_of};

use crate::ledgers::Ledgers;
use crate::seats::Back;
use meet_tickets::{MOST_SEATS, Refusal, SeatNo};
use std::alloc::Global;

/// Whether this seat is among these.
fn is_back<D: Copy, N: Ledgers>(seats: &[Back<D, N>], number: u64) -> bool
    ensures { result ≡ is_back seats.now number }
{
    seats.iter().any(|back| back.number().number() == number)
}

/// Returns the numbers of those of `made` seats that aren't among these, in rising order. It compares each number with
/// each seat.
///
/// # Errors
/// - Memory, if an allocation fails.
pub fn missing_seats<D: Copy, N: Ledgers>(
    alloc: Global,
    made: u64,
    seats: &[Back<D, N>],
) -> Result<Vec<SeatNo>, Refusal>
    ensures missing { IfOk result (λ list. list.items ≡ missing_of made seats.now) }
    ensures memory { IfErr result (λ why. why ≡ Memory) }
{
    let mut list = Vec::new(alloc);
    for number in 0..made.min(MOST_SEATS) {
        if is_back(seats, number) {
            continue;
        }
        if list.push(SeatNo::new(number).unwrap()).is_err() {
            return Err(Refusal::Memory);
        }
    }
    Ok(list)
}
