//! A bulk poll (a drain) at a place that threads share.

ghost use Rattle.std.specs.Prelude.{◌≡◌, ◌⊎◌, ◌+◌, ◌<◌, ◌≤◌, ◌++◌, ℕ, [], length, map, min, vec_len};
ghost use Rattle.std.specs.Prelude.{IfOk, IfErr, IfSome};
ghost use Rattle.std.specs.Vec.{vec_capacity};
ghost use Rattle.meet_tickets.specs.Refusals.{IsWhy};
ghost use Rattle.meet_tickets.specs.declared.refusals.Refusal.TheVariants.{Memory};
ghost use Rattle.meet_book.specs.Booked.{Booked};
ghost use Rattle.meet_book.specs.Draining.{TakingPolls, AreNumbered, book_drain_refusal};
ghost use Rattle.meet_place.specs.Holds.{IsBookOf, IsSince};
ghost use Rattle.meet_place.specs.Seats.{DrainedAs, IsLater};

use crate::ledgers::Ledgers;
use crate::place::Place;
use crate::seats::Seat;
use crate::shared::Shared;
use meet_book::{Drains, Receipt, Watch};
use meet_cells::Gate;
use meet_tickets::{Refusal, Refused, SeatNo};
use std::alloc::Global;
use std::sync::Wait;

/// Empty lists for what a drain takes.
#[derive(Drop)]
pub struct DrainRoom<O: Drains> {
    /// The results of the polls with their receipts.
    pub polled: Vec<(O::Answer, Receipt<O::Deed>)>,
    /// The results of the polls.
    pub answers: Vec<O::Answer>,
}

/// Puts the receipts at the list's end, and the answers into their list, both in their order. Each list has room.
fn hand_out<A, D: Copy>(
    got: Vec<(A, Receipt<D>)>,
    list: &mut Vec<Receipt<D>>,
    empty: Vec<A>,
) -> Vec<A>
    requires empty { empty.items ≡ [] }
    requires answers { vec_len got ≤ vec_capacity empty }
    requires receipts { vec_len list.old + vec_len got ≤ vec_capacity list.old }
    ensures answers { result.items ≡ map (λ one. one.0) got.items }
    ensures receipts { list.new.items ≡ list.old.items ++ map (λ one. one.1) got.items }
    ensures len { vec_len list.new ≡ vec_len list.old + vec_len got }
    ensures capacity { vec_capacity list.new ≡ vec_capacity list.old }
{
    let mut answers = empty;
    let mut rest = got.into_iter();
    while let Some(one) = rest.next() {
        let (answer, receipt) = one;
        answers.push_reserved(answer);
        list.push_reserved(receipt);
    }
    rest.destroy_empty();
    answers
}

impl<O: Drains, N: Ledgers> Shared<O, N> {
    /// Takes up to `max` items for a seat in this critical section, one logged poll after another, and no more than
    /// both empty lists and the seat's list have room for. Returns the polls' results in order, and puts the receipts
    /// at the end of the seat's list. The watch is notified of each seat that may go on.
    ///
    /// # Errors
    /// Seat and lists are as they were.
    /// - The object's own reasons, HistoryFull or Memory, as the book's `drain` of as many items.
    ///
    /// Java: `BlockingQueue.drainTo`.
    pub fn drain<W: Watch>(
        &mut self,
        seat: &mut Seat<O::Deed, N>,
        max: u64,
        empty: DrainRoom<O>,
        watch: &mut W,
    ) -> Result<Vec<O::Answer>, Refused<DrainRoom<O>>>
        requires empty { (empty.polled.items ≡ []) × (empty.answers.items ≡ []) }
        requires answers { vec_capacity empty.polled ≤ vec_capacity empty.answers }
        requires receipts { vec_capacity empty.polled ≤ seat.old.room }
        ensures number { seat.new.number ≡ seat.old.number }
        ensures past { seat.new.past ≡ seat.old.past }
        ensures room { length seat.new.list + seat.new.room ≡ length seat.old.list + seat.old.room }
        ensures count { IfOk result (λ answers. length answers.items
            ≡ min (min max (vec_capacity empty.polled)) (O.available_of self.old.object)) }
        ensures polls { IfOk result (λ answers. DrainedAs (λ got. TakingPolls
            (λ old answer new. O.steps old seat.old.number O.poll answer new) (O.record_of seat.old.number O.poll)
            (λ o. O.refusal_of o seat.old.number O.poll) O.available_of O.unspent_of O.owed_of
            self.old.object got self.new.object × AreNumbered (O.gone_of self.old.base + length self.old.records) got)
            seat.old.list seat.new.list answers.items) }
        ensures later { IsLater seat.old.moment seat.new.moment seat.old.list seat.new.list }
        ensures why { IfErr result (λ refused. IsWhy (book_drain_refusal
            (O.refusal_of self.old.object seat.old.number O.poll) (O.unspent_of self.old.object)
            (O.owed_of self.old.object) self.old
            (min (min max (vec_capacity empty.polled)) (O.available_of self.old.object))) refused.why) }
        ensures back { IfErr result (λ refused. refused.back ≡ empty) }
        ensures unchanged { IfErr result (λ _. self.new ≡ record self.old { room = self.new.room }) }
        ensures same { IfErr result (λ _. seat.new ≡ seat.old) }
        ensures cap { self.new.cap ≡ self.old.cap }
        ensures base { self.new.base ≡ self.old.base }
        ensures place { IsBookOf O.seat_count_of N.parts N.cap self.old }
        ensures within { seat.old.number < N.parts }
    {
        let Seat {
            number,
            list,
            share,
            moment,
            ..
        } = seat;
        let Shared { book, total, .. } = self;
        let DrainRoom { polled, answers } = empty;
        let got = match book.drain_into(*number, max, polled, watch) {
            Ok(got) => got,
            Err(refused) => {
                let Refused { why, back } = refused;
                return Err(Refused {
                    why,
                    back: DrainRoom {
                        polled: back,
                        answers,
                    },
                });
            }
        };
        total.add(share, moment, got.len() as u64);
        Ok(hand_out(got, list, answers))
    }
}

/// Room for a drain of this many items, or none if an allocation fails.
fn room_for<O: Drains>(alloc: Global, items: usize) -> Option<DrainRoom<O>>
    ensures room { IfSome result (λ room. items ≤ vec_capacity room.polled) }
    ensures empty { IfSome result (λ room. (room.polled.items ≡ []) × (room.answers.items ≡ [])) }
    ensures answers { IfSome result (λ room. vec_capacity room.polled ≤ vec_capacity room.answers) }
{
    let polled = Vec::with_capacity(alloc, items).ok()?;
    match Vec::with_capacity(alloc, polled.capacity()) {
        Ok(answers) => Some(DrainRoom { polled, answers }),
        Err(_) => {
            polled.destroy_empty();
            None
        }
    }
}

impl<O: Drains> DrainRoom<O> {
    /// Lets the empty lists go.
    fn destroy_empty(self)
        requires { (self.polled.items ≡ []) × (self.answers.items ≡ []) }
    {
        let DrainRoom { polled, answers } = self;
        polled.destroy_empty();
        answers.destroy_empty();
    }
}

/// Seats to be woken once the lock is free: as many as there is room for.
#[derive(Drop)]
struct Woken {
    seats: Vec<SeatNo>,
}

impl Watch for Woken {
    fn tell(&mut self, seat: Option<SeatNo>) {
        if let Some(seat) = seat {
            if self.seats.len() < self.seats.capacity() {
                self.seats.push_reserved(seat);
            }
        }
    }
}

impl<O: Drains, G: Gate, N: Ledgers> Place<O, G, N> {
    /// Returns how many items there are at some time.
    pub fn available<R: Wait>(&self, rt: &R) -> u64
        ensures { (object : O) × (O.seat_count_of object ≡ N.parts) × (result ≡ O.available_of object) }
    {
        let shared = self.hold(rt);
        shared.probe().available()
    }

    /// Takes up to `max` of the items that are there for a seat, one logged poll after another, all in one critical
    /// section, so that the records follow one another. It reserves room for `max` items first, without the lock: a
    /// `max` that was `available` a moment ago reserves no more than is of use. The producers are woken after the lock
    /// is free again.
    ///
    /// # Errors
    /// The seat's list is as it was.
    /// - Memory, if that room can't be reserved.
    /// - The object's own reasons, HistoryFull or Memory, as the book's `drain`.
    ///
    /// Java: `BlockingQueue.drainTo`.
    pub fn locked_drain<R: Wait>(
        &self,
        rt: &R,
        alloc: Global,
        seat: &mut Seat<O::Deed, N>,
        max: u64,
    ) -> Result<Vec<O::Answer>, Refusal>
        ensures number { seat.new.number ≡ seat.old.number }
        ensures past { seat.new.past ≡ seat.old.past }
        ensures polls { IfOk result (λ answers. (old : O) × (new : O) × (last : ℕ) × (O.seat_count_of old ≡ N.parts)
            × (length answers.items ≡ min max (O.available_of old))
            × DrainedAs (λ got. TakingPolls (λ before answer after. O.steps before seat.old.number O.poll answer after)
            (O.record_of seat.old.number O.poll) (λ o. O.refusal_of o seat.old.number O.poll) O.available_of
            O.unspent_of O.owed_of old got new × AreNumbered last got) seat.old.list seat.new.list answers.items) }
        ensures later { IsLater seat.old.moment seat.new.moment seat.old.list seat.new.list }
        ensures why { IfErr result (λ why. (why ≡ Memory) ⊎ ((book : Booked O O.Base O.Deed) × (k : ℕ) × (k ≤ max)
            × IsBookOf O.seat_count_of N.parts N.cap book × IsSince O.leads O.gone_of seat.old.moment book
            × (seat.old.number < N.parts) × IsWhy (book_drain_refusal (O.refusal_of book.object seat.old.number O.poll) (O.unspent_of book.object)
            (O.owed_of book.object) book k) why)) }
        ensures same { IfErr result (λ _. seat.new.list ≡ seat.old.list) }
    {
        let Ok(seats) = Vec::with_capacity(alloc, max as usize) else {
            return Err(Refusal::Memory);
        };
        let mut woken = Woken { seats };
        let drained = self.drain_watched(rt, alloc, seat, max, &mut woken);
        self.wake_all(woken.seats);
        drained
    }

    /// Wakes the gates of these seats.
    fn wake_all(&self, seats: Vec<SeatNo>) {
        for seat in seats {
            self.wake(Some(seat));
        }
    }

    /// The same; nobody is woken, but the watch is told of whom to wake.
    fn drain_watched<R: Wait, W: Watch>(
        &self,
        rt: &R,
        alloc: Global,
        seat: &mut Seat<O::Deed, N>,
        max: u64,
        watch: &mut W,
    ) -> Result<Vec<O::Answer>, Refusal>
        ensures number { seat.new.number ≡ seat.old.number }
        ensures past { seat.new.past ≡ seat.old.past }
        ensures polls { IfOk result (λ answers. (old : O) × (new : O) × (last : ℕ) × (O.seat_count_of old ≡ N.parts)
            × (length answers.items ≡ min max (O.available_of old))
            × DrainedAs (λ got. TakingPolls (λ before answer after. O.steps before seat.old.number O.poll answer after)
            (O.record_of seat.old.number O.poll) (λ o. O.refusal_of o seat.old.number O.poll) O.available_of
            O.unspent_of O.owed_of old got new × AreNumbered last got) seat.old.list seat.new.list answers.items) }
        ensures later { IsLater seat.old.moment seat.new.moment seat.old.list seat.new.list }
        ensures why { IfErr result (λ why. (why ≡ Memory) ⊎ ((book : Booked O O.Base O.Deed) × (k : ℕ) × (k ≤ max)
            × IsBookOf O.seat_count_of N.parts N.cap book × IsSince O.leads O.gone_of seat.old.moment book
            × (seat.old.number < N.parts) × IsWhy (book_drain_refusal (O.refusal_of book.object seat.old.number O.poll) (O.unspent_of book.object)
            (O.owed_of book.object) book k) why)) }
        ensures same { IfErr result (λ _. seat.new.list ≡ seat.old.list) }
    {
        let Some(room) = room_for::<O>(alloc, max as usize) else {
            return Err(Refusal::Memory);
        };
        if seat.reserve(room.polled.capacity()).is_err() {
            room.destroy_empty();
            return Err(Refusal::Memory);
        }
        let mut shared = self.hold_since(rt, &seat.moment());
        match shared.drain(seat, max, room, watch) {
            Ok(answers) => Ok(answers),
            Err(refused) => {
                let Refused { why, back } = refused;
                back.destroy_empty();
                Err(why)
            }
        }
    }
}
