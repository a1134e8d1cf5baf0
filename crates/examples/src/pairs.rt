//! A transfer queue of numbers with two seats.

ghost use Rattle.std.specs.Prelude.{◌≡◌, [], IfOk, vec_len};
ghost use Rattle.ibisbookcase.specs.Ledgers.{AreOf};
ghost use Rattle.ibisbookcase.specs.Limits.{most_records};
ghost use Rattle.ibisbookcase.specs.Seats.{AreFresh};

use ibisbookcase::queues::{Back, Deed, Ledgers, NewQueue, ParkGate, Refusal, Seat, TransferQueue};
use std::alloc::Global;

/// A transfer queue of numbers.
pub type Numbers<N> = TransferQueue<u64, ParkGate, N>;

pub type Sitting<N> = Seat<Deed, N>;

/// The two seats of a new queue, the first and the second.
fn pair<N: Ledgers>(made: Vec<Sitting<N>>) -> Result<(Sitting<N>, Sitting<N>), Refusal>
    requires fresh { AreFresh made.items }
    ensures fresh { IfOk result (λ seats. (seats.0.list ≡ []) × (seats.1.list ≡ [])) }
{
    let mut seats = made;
    match (seats.pop(), seats.pop()) {
        (Some(second), Some(first)) => Ok((first, second)),
        _ => Err(Refusal::SeatMissing),
    }
}

/// Creates a queue of these parts, and returns it with its first and its second seat.
pub fn opened<N: Ledgers>(
    alloc: Global,
    parts: NewQueue<ParkGate>,
) -> Result<(Numbers<N>, (Sitting<N>, Sitting<N>)), Refusal>
    requires ledgers { AreOf N.name N.folds N.moments N.parts parts.blanks }
    requires one_each { N.parts ≡ vec_len parts.gates }
    requires cap { N.cap ≡ most_records }
    ensures fresh { IfOk result (λ made. (made.1.0.list ≡ []) × (made.1.1.list ≡ [])) }
{
    match Numbers::<N>::new(alloc, parts) {
        Ok((queue, seats)) => Ok((queue, pair(seats)?)),
        Err(refused) => Err(refused.into_why()),
    }
}

/// Closes a queue with the seats of its two threads, and returns the number of the items that are left.
pub fn closed<N: Ledgers>(
    alloc: Global,
    queue: Numbers<N>,
    first: Sitting<N>,
    second: Sitting<N>,
) -> Result<usize, Refusal> {
    let Ok(mut backs) = Vec::with_capacity(alloc, 2) else {
        return Err(Refusal::Memory);
    };
    backs.push_reserved(Back::Free(first));
    backs.push_reserved(Back::Free(second));
    match queue.close(alloc, backs) {
        Ok(chronicle) => Ok(chronicle.left.len()),
        Err(fault) => Err(fault.into_why()),
    }
}
