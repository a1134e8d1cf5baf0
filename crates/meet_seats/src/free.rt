//! The seats that are free.

ghost use Rattle.std.specs.Prelude.{◌≡◌, ◌<◌, ◌≤◌, ◌++◌, ◌∷◌, [], None, Some, length, map, vec_len, MatchOption};
ghost use Rattle.std.specs.Vec.{vec_capacity};
ghost use Rattle.meet_place.specs.declared.seats.Back.TheVariants.{Free as IsFree};

use meet_place::{Back, Ledgers, Seat};
use std::marker::Model;

/// The free seats of a place, as a stack, and room for all seats of the place, for its end.
#[derive(Drop)]
pub(crate) struct Free<D: Copy + Drop, N: Ledgers> {
    seats: Vec<Seat<D, N>>,
    backs: Vec<Back<D, N>>,
    made: usize,
}

impl<D: Copy + Drop, N: Ledgers> Model for Free<D, N> {
    ghost use Rattle.std.specs.Prelude.{◌≡◌, ◌≤◌, [], List, vec_len};
    ghost use Rattle.std.specs.Vec.{vec_capacity};
    ghost use Rattle.meet_place.specs.Seats.{SeatView};

    ghost Value = { List (SeatView D) };

    ghost view = { λ free. free.seats.items };

    ghost invariant = { λ free. (free.made ≡ N.parts) × (vec_len free.seats ≤ N.parts)
        × (N.parts ≤ vec_capacity free.seats) × (free.backs.items ≡ []) × (N.parts ≤ vec_capacity free.backs) };
}

impl<D: Copy + Drop, N: Ledgers> Free<D, N> {
    /// Creates a stack of all seats of a place. The empty list has room for them.
    pub(crate) fn of(seats: Vec<Seat<D, N>>, empty: Vec<Back<D, N>>) -> Self
        requires all { vec_len seats ≡ N.parts }
        requires empty { empty.items ≡ [] }
        requires room { N.parts ≤ vec_capacity empty }
        ensures { result ≡ seats.items }
    {
        Free {
            made: seats.len(),
            seats,
            backs: empty,
        }
    }

    /// Removes and returns the seat that was released last; None exactly if no seat is free.
    pub(crate) fn take(&mut self) -> Option<Seat<D, N>>
        ensures { MatchOption result ((self.old ≡ []) × (self.new ≡ [])) (λ seat. self.old ≡ self.new ++ seat ∷ []) }
    {
        self.seats.pop()
    }

    /// Pushes a seat that is released. If all seats of the place are here it returns the seat instead, which never
    /// happens: this is one of them.
    pub(crate) fn put(&mut self, seat: Seat<D, N>) -> Option<Seat<D, N>>
        ensures there { length self.old < N.parts → (self.new ≡ self.old ++ seat ∷ []) × (result ≡ None) }
        ensures full { N.parts ≤ length self.old → (self.new ≡ self.old) × (result ≡ Some seat) }
    {
        if self.seats.len() < self.made {
            self.seats.push_reserved(seat);
            None
        } else {
            Some(seat)
        }
    }

    /// Returns all free seats.
    pub(crate) fn into_backs(self) -> Vec<Back<D, N>>
        ensures all { result.items ≡ map IsFree self }
        ensures most { vec_len result ≤ N.parts }
    {
        let Free { seats, backs, .. } = self;
        let mut backs = backs;
        for seat in seats {
            backs.push_reserved(Back::Free(seat));
        }
        backs
    }
}
