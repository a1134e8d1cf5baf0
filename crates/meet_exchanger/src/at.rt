//! A handle at an exchanger, and the seats of one exchanger.

ghost use Rattle.std.specs.Prelude.{◌≡◌, ◌≤◌, [], IsSome, IfSome, vec_len};
ghost use Rattle.std.specs.Option.{ForSome};
ghost use Rattle.std.specs.Vec.{vec_capacity};
ghost use Rattle.meet_exchange.specs.Seats.{AreNew, ArenaView};
ghost use Rattle.meet_exchange.specs.Closed.{AreOf};
ghost use Rattle.meet_exchanger.specs.Tries.{MayTimeOut};
ghost use Rattle.meet_exchanger.specs.Handles.{CalledAs};

use crate::exchanger::Exchanger;
use crate::handles::{ExchangerHandle, Unmet, apart};
use meet_exchange::{Back, Seat};
use meet_tickets::Marked;
use std::marker::{Brand, PhantomData};
use std::sync::Wait;
use std::time::Clock;

/// Tells the seats of one exchanger from those of others.
pub(crate) trait Site {
    /// The exchanger.
    ghost site: { ArenaView };
}

impl Site for Brand {
    ghost use Rattle.meet_exchanger.specs.Handles.{no_site};

    ghost site = { no_site };
}

/// A seat of the exchanger of this site.
#[derive(Drop)]
pub(crate) struct Placed<T, N: Site> {
    pub(crate) seat: Seat<T>,
    pub(crate) of: PhantomData<N>,
    ghost place: { seat.arena ≡ N.site.id },
}

/// These new seats, from the last to the first. The empty list has room for them.
pub(crate) fn place_all<T, N: Site>(
    seats: Vec<Seat<T>>,
    empty: Vec<Placed<T, N>>,
) -> Vec<Placed<T, N>>
    requires new { AreNew N.site.id 0 seats.items }
    requires empty { empty.items ≡ [] }
    requires room { vec_len seats ≤ vec_capacity empty }
    ensures { vec_len result ≡ vec_len seats }
{
    let mut seats = seats;
    let mut placed = empty;
    while let Some(seat) = seats.pop() {
        placed.push_reserved(Placed {
            seat,
            of: PhantomData,
        });
    }
    seats.destroy_empty();
    placed
}

/// These seats as they are given back, from the last to the first. The empty list has room for them.
pub(crate) fn give_back<T, N: Site>(seats: Vec<Placed<T, N>>, empty: Vec<Back<T>>) -> Vec<Back<T>>
    requires empty { empty.items ≡ [] }
    requires room { vec_len seats ≤ vec_capacity empty }
    ensures place { AreOf N.site.id result.items }
    ensures count { vec_len result ≡ vec_len seats }
{
    let mut seats = seats;
    let mut backs = empty;
    while let Some(placed) = seats.pop() {
        backs.push_reserved(Back::Free(placed.seat));
    }
    seats.destroy_empty();
    backs
}

/// A seat beside its exchanger. It is taken out for a call alone.
#[derive(Drop)]
pub(crate) struct At<'x, T: Marked, N: Site, R> {
    rt: &'x R,
    exchanger: &'x Exchanger<T>,
    seat: Option<Seat<T>>,
    of: PhantomData<N>,
    ghost here: { exchanger.now ≡ N.site },
    ghost seated: { IsSome seat },
    ghost place: { ForSome seat (λ seat. seat.arena ≡ N.site.id) },
}

impl<'x, T: Marked, N: Site, R> At<'x, T, N, R> {
    /// A handle with this seat at its exchanger.
    pub(crate) fn new(rt: &'x R, exchanger: &'x Exchanger<T>, placed: Placed<T, N>) -> Self
        requires { exchanger.now ≡ N.site }
    {
        At {
            rt,
            exchanger,
            seat: Some(placed.seat),
            of: PhantomData,
        }
    }

    /// The seat.
    pub(crate) fn into_placed(self) -> Placed<T, N> {
        Placed {
            seat: self.seat.unwrap(),
            of: PhantomData,
        }
    }
}

impl<'x, T, N, R> ExchangerHandle<T> for At<'x, T, N, R>
where
    T: Marked,
    N: Site,
    R: Wait + Clock,
{
    type Runtime = R;

    ghost site = { N.site };

    ghost seat_of = { λ at. at.seat };

    fn number(&self) -> u64
        ensures { IfSome self.now.seat (λ seat. result ≡ seat.number) }
    {
        self.seat.as_ref().unwrap().number().number()
    }

    fn seats(&self) -> u64
        ensures { result ≡ N.site.seats }
    {
        self.exchanger.seats()
    }

    fn exchange_within(&mut self, item: T, limit: Option<u64>) -> Result<T, Unmet<T>>
        ensures called { CalledAs T.mark_of N.site.slots (MayTimeOut limit) self.old.seat self.new.seat
            (T.mark_of item) result }
    {
        let seat = self.seat.take().unwrap();
        let (seat, told) = apart(self.exchanger.exchange_within(self.rt, seat, item, limit));
        self.seat = Some(seat);
        told
    }
}
