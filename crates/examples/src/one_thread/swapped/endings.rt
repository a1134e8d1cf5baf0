//! How an offer is ended.

ghost use Rattle.std.specs.Prelude.{◌≡◌, ◌<◌, IfOk, IfErr};
ghost use Rattle.examples.specs.Came.{Came, Stands};

use crate::parcels::passing::Parcel;
use meet_exchange::{Arena, Gathered, Pending, Seat, TakenBack};

/// Ends an offer without waiting: the parcel of another seat that answered, or the own one back. Where another seat
/// took that and its own isn't there yet, the offer stands.
pub fn end_offer(
    arena: &Arena<Parcel>,
    pending: Pending<Parcel>,
) -> Result<(Seat<Parcel>, Parcel), Pending<Parcel>>
    requires place { pending.seat.arena ≡ arena.now.id }
    requires slot { pending.slot < arena.now.slots }
    ensures came { IfOk result (λ it. Came pending it.0 it.1) }
    ensures place { IfOk result (λ it. it.0.arena ≡ arena.now.id) }
    ensures stands { IfErr result (λ it. Stands pending it) }
    ensures stays { IfErr result (λ it. it.seat.arena ≡ arena.now.id) }
{
    match arena.collect(pending) {
        Gathered::Got(seat, parcel) => Ok((seat, parcel)),
        Gathered::NotYet(pending) => match arena.withdraw(pending) {
            TakenBack::Back(seat, parcel) => Ok((seat, parcel)),
            TakenBack::Late(pending) => Err(pending),
        },
    }
}
