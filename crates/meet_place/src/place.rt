//! One place that threads share.

ghost use Rattle.std.specs.Prelude.{◌≡◌, ◌+◌, ◌<◌, ◌≤◌, [], None, length, option_to_list, IfOk, IfErr};
ghost use Rattle.std.specs.Prelude.{vec_len};
ghost use Rattle.std.specs.Fn.{FnOnceReturnsAt};
ghost use Rattle.std.specs.Sync.Mutex.{mutex_guard_value};
ghost use Rattle.std.specs.Vec.{vec_capacity};
ghost use Rattle.meet_tickets.specs.Limits.{most_seats};
ghost use Rattle.meet_tickets.specs.Refusals.{IsWhy};
ghost use Rattle.meet_book.specs.Booked.{Booked};
ghost use Rattle.meet_book.specs.Booking.{book_refusal, cut_refusal};
ghost use Rattle.meet_place.specs.Ledgers.{AreOf};
ghost use Rattle.meet_place.specs.Seats.{Adds, AreFresh, IsLater, Trims, TrimsPending, Checkpoints, share_in};
ghost use Rattle.meet_place.specs.Holds.{BookRefuses, IsBookOf, IsSince, sizes_refusal};

use crate::ledgers::{Blanks, Ledgers, Moment};
use crate::opening::hold_or_sleep;
use crate::seats::{Pending, Seat};
use crate::shared::Shared;
use crossbeam_utils::CachePadded;
use meet_book::{Bases, Book, Object, Wakes};
use meet_cells::{Gate, Turn};
use meet_tickets::{MOST_SEATS, Refusal, Refused, SeatNo};
use std::alloc::Global;
use std::marker::Model;
use std::sync::atomic::{AtomicBool, Ordering};
use std::sync::{Mutex, MutexGuard, Wait};
use std::time::Clock;

/// The parts of a place.
#[derive(Drop)]
pub struct NewPlace<O: Object, G> {
    /// The book of a place that has no history yet.
    pub book: Book<O>,
    /// A gate for each seat.
    pub gates: Vec<G>,
    /// Two ledgers with a part for each seat.
    pub blanks: Blanks,
}

/// A book under a lock, and a gate for each seat. A contract sees the number of its seats: what lies under the lock is
/// changed by all threads, so it is known only while one holds the lock.
#[derive(Drop)]
pub struct Place<O: Object, G, N: Ledgers> {
    pub(crate) gates: Vec<CachePadded<G>>,
    /// How many records there are at most at a time.
    pub(crate) cap: u64,
    shared: CachePadded<Mutex<Shared<O, N>>>,
    /// Whether the last wait at a gate found the processors oversubscribed: a hint.
    oversubscribed: AtomicBool,
}

impl<O: Object, G, N: Ledgers> Model for Place<O, G, N> {
    ghost use Rattle.std.specs.Prelude.{◌≡◌, ◌≤◌, ℕ, vec_len};
    ghost use Rattle.meet_tickets.specs.Limits.{most_seats};

    ghost Value = { ℕ };

    ghost view = { λ p. vec_len p.gates };

    ghost invariant = { λ p. (vec_len p.gates ≡ N.parts) × (vec_len p.gates ≤ most_seats) × (p.cap ≡ N.cap) };
}

/// The seat of this number.
pub(crate) fn seat_of(number: usize) -> SeatNo
    requires { number < most_seats }
    ensures { result ≡ number }
{
    SeatNo::new(number as u64).unwrap()
}

impl<O: Object, G: Drop, N: Ledgers> Place<O, G, N> {
    /// Creates a place over the book of a place that has no history yet, and its seats, one for each gate, numbered
    /// from 0.
    ///
    /// # Errors
    /// The parts are returned.
    /// - BadSizes, exactly if there is no gate or more than 65,536.
    /// - Memory, if an allocation fails.
    pub fn new(
        alloc: Global,
        parts: NewPlace<O, G>,
    ) -> Result<(Self, Vec<Seat<O::Deed, N>>), Refused<NewPlace<O, G>>>
        requires fresh { O.gone_of parts.book.base + length parts.book.records ≡ 0 }
        requires first { parts.book.base ≡ O.no_base }
        requires ledgers { AreOf N.name N.folds N.moments N.parts parts.blanks }
        requires one_each { N.parts ≡ vec_len parts.gates }
        requires seats { O.seat_count_of parts.book.object ≡ vec_len parts.gates }
        requires cap { parts.book.cap ≡ N.cap }
        ensures count { IfOk result (λ made. made.0 ≡ vec_len parts.gates) }
        ensures seats { IfOk result (λ made. vec_len made.1 ≡ vec_len parts.gates) }
        ensures numbers { IfOk result (λ made. AreFresh made.1.items) }
        ensures sizes { IfOk result (λ _. sizes_refusal (vec_len parts.gates) ≡ None) }
        ensures why { IfErr result (λ refused. IsWhy (sizes_refusal (vec_len parts.gates)) refused.why) }
        ensures back { IfErr result (λ refused. refused.back ≡ parts) }
    {
        let count = parts.gates.len();
        if count == 0 || count as u64 > MOST_SEATS {
            return Err(Refused {
                why: Refusal::BadSizes,
                back: parts,
            });
        }
        let mut padded = Vec::new(alloc);
        let mut seats = Vec::new(alloc);
        if padded.reserve(count).is_err() || seats.reserve(count).is_err() {
            return Err(Refused {
                why: Refusal::Memory,
                back: parts,
            });
        }
        Ok(Self::with_room(alloc, parts, padded, seats))
    }

    /// The place and its seats. The empty lists have room for the gates and the seats, so that nothing is refused, and
    /// the book is never let go.
    fn with_room(
        alloc: Global,
        parts: NewPlace<O, G>,
        mut padded: Vec<CachePadded<G>>,
        mut seats: Vec<Seat<O::Deed, N>>,
    ) -> (Self, Vec<Seat<O::Deed, N>>)
        requires fresh { O.gone_of parts.book.base + length parts.book.records ≡ 0 }
        requires first { parts.book.base ≡ O.no_base }
        requires limit { vec_len parts.gates ≤ most_seats }
        requires ledgers { AreOf N.name N.folds N.moments N.parts parts.blanks }
        requires one_each { N.parts ≡ vec_len parts.gates }
        requires seats { O.seat_count_of parts.book.object ≡ vec_len parts.gates }
        requires cap { parts.book.cap ≡ N.cap }
        requires empty { (padded.items ≡ []) × (seats.items ≡ []) }
        requires room { (vec_len parts.gates ≤ vec_capacity padded) × (vec_len parts.gates ≤ vec_capacity seats) }
        ensures count { result.0 ≡ vec_len parts.gates }
        ensures seats { vec_len result.1 ≡ vec_len parts.gates }
        ensures numbers { AreFresh result.1.items }
    {
        let NewPlace {
            book,
            gates,
            blanks,
        } = parts;
        let (mut total, mut rest) = blanks.open::<N>();
        let first = total.moment();
        for gate in gates {
            let number = seat_of(padded.len());
            padded.push_reserved(CachePadded::new(gate));
            seats.push_reserved(Seat::new(alloc, number, rest.split_off(1, 0, 0), first.again()));
        }
        let place = Place {
            gates: padded,
            cap: book.cap(),
            shared: CachePadded::new(Mutex::new(Shared::new(book, total, rest))),
            oversubscribed: AtomicBool::new(false),
        };
        (place, seats)
    }
}

impl<O: Object, G, N: Ledgers> Place<O, G, N> {
    /// Returns the number of its seats.
    pub fn seats(&self) -> u64
        ensures count { result ≡ self.now }
        ensures parts { result ≡ N.parts }
        ensures limit { result ≤ most_seats }
    {
        self.gates.len() as u64
    }

    /// Takes the lock after no other thread has it, and holds it until the guard is dropped. A step is short, so it
    /// first lets another thread run a few times, and sleeps only if the lock is held even then, or if waits at the gates
    /// found the processors oversubscribed.
    pub fn hold<R: Wait>(&self, rt: &R) -> MutexGuard<'_, Shared<O, N>> {
        hold_or_sleep(rt, &self.shared, &self.oversubscribed)
    }

    /// Takes the lock as `hold`, and states that what it guards isn't older than a moment.
    #[inline(always)]
    pub fn hold_since<R: Wait>(&self, rt: &R, since: &Moment<N>) -> MutexGuard<'_, Shared<O, N>>
        ensures since { IsSince O.leads O.gone_of since.now (mutex_guard_value result) }
    {
        let mut shared = self.hold(rt);
        shared.audit_moment(since);
        shared
    }

    /// Returns what this closure returns of the place as it is at some time, in one critical section.
    pub fn look<R: Wait, A, F: FnOnce(&O) -> A>(&self, rt: &R, look: F) -> A
        requires { F.IsAlwaysCallable look }
        ensures { (object : O) × (O.seat_count_of object ≡ N.parts) × FnOnceReturnsAt F.FnOnce look object result }
    {
        let shared = self.hold(rt);
        look(shared.probe())
    }

    /// Returns what this closure returns of the place, as `look` does, at a state that isn't older than a moment. A
    /// legal history, in which all records up to the moment stand, leads to the object that the closure is given.
    pub fn look_since<R: Wait, A, F: FnOnce(&O) -> A>(
        &self,
        rt: &R,
        since: &Moment<N>,
        look: F,
    ) -> A
        requires { F.IsAlwaysCallable look }
        ensures { (book : Booked O O.Base O.Deed) × (O.seat_count_of book.object ≡ N.parts)
            × IsSince O.leads O.gone_of since.now book × FnOnceReturnsAt F.FnOnce look book.object result }
    {
        let shared = self.hold_since(rt, since);
        look(shared.probe())
    }

    /// Drops the receipts for the records that are compacted by now from a seat's list. It looks under the lock how
    /// many these are, and doesn't allocate.
    pub fn trim<R: Wait>(&self, rt: &R, seat: &mut Seat<O::Deed, N>)
        ensures { (base : O.Base) × Trims (O.gone_of base) seat.old seat.new
            × (seat.old.past.folded ≤ O.gone_of base) }
    {
        trim_after(self.hold(rt), seat);
    }

    /// Drops the receipts of a seat whose request is pending, and stays so, as `trim` does.
    pub fn trim_pending<R: Wait>(&self, rt: &R, pending: Pending<O::Deed, N>) -> Pending<O::Deed, N>
        ensures { (base : O.Base) × TrimsPending (O.gone_of base) pending result
            × (pending.past.folded ≤ O.gone_of base) }
    {
        let (mut seat, ticket, mark) = pending.into_parts();
        self.trim(rt, &mut seat);
        Pending::new(seat, ticket, mark)
    }

    /// The gates, and what the lock guarded.
    pub(crate) fn into_shared(self) -> (Vec<CachePadded<G>>, Shared<O, N>)
        ensures gates { (vec_len result.0 ≡ self) × (self ≡ N.parts) × (self ≤ most_seats) }
    {
        let Place { gates, shared, .. } = self;
        (gates, shared.into_inner().into_inner())
    }

    /// The place of these parts.
    pub(crate) fn of_shared(gates: Vec<CachePadded<G>>, shared: Shared<O, N>) -> Self
        requires gates { (vec_len gates ≡ N.parts) × (vec_len gates ≤ most_seats) }
        ensures { result ≡ vec_len gates }
    {
        Place {
            gates,
            cap: shared.cap(),
            shared: CachePadded::new(Mutex::new(shared)),
            oversubscribed: AtomicBool::new(false),
        }
    }
}

/// Drops a seat's receipts for the records that the book under this lock folded away. It releases the lock first.
fn trim_after<O: Object, N: Ledgers>(
    mut shared: MutexGuard<'_, Shared<O, N>>,
    seat: &mut Seat<O::Deed, N>,
)
    ensures trims { Trims (O.gone_of (mutex_guard_value shared.entry).base) seat.old seat.new }
    ensures folded { seat.old.past.folded ≤ O.gone_of (mutex_guard_value shared.entry).base }
{
    let gone = shared.gone_for(seat);
    drop(shared);
    seat.forget(gone);
}

impl<O: Bases, G, N: Ledgers> Place<O, G, N>
where
    O::Base: Drop,
{
    /// Compacts the log for a seat (a checkpoint), in one critical section, and returns how many records were compacted
    /// since the first. Those of this time count for the seat.
    ///
    /// # Errors
    /// The seat hasn't changed.
    /// - HistoryFull, if more than 2^63 - 1 records would be compacted.
    /// - Memory, if the base can't grow.
    pub fn locked_cut<R: Wait>(&self, rt: &R, seat: &mut Seat<O::Deed, N>) -> Result<u64, Refusal>
        ensures gone { IfOk result (λ gone. (book : Booked O O.Base O.Deed)
            × (gone ≡ O.gone_of book.base + length book.records) × (cut_refusal (O.gone_of book.base) book ≡ None)
            × Checkpoints (length book.records) seat.old seat.new) }
        ensures all { IfOk result (λ gone. share_in seat.new ≤ gone) }
        ensures why { IfErr result (λ why. (book : Booked O O.Base O.Deed)
            × IsWhy (cut_refusal (O.gone_of book.base) book) why) }
        ensures same { IfErr result (λ _. seat.new ≡ seat.old) }
    {
        let mut shared = self.hold(rt);
        shared.cut(seat)
    }
}

impl<O: Wakes, G, N: Ledgers> Place<O, G, N> {
    /// Makes a call of a seat in one critical section. Returns its result, and the seat that it should wake after the
    /// lock is free again. The seat's list has room for the receipt, so under the lock nothing grows but the book's
    /// records.
    ///
    /// # Errors
    /// The seat is as it was, and the call is returned.
    /// - The object's own reasons, for this call.
    /// - HistoryFull, if the log has no room for the reserved and the required records.
    /// - Memory, if the object or the log can't grow.
    #[inline(always)]
    pub fn locked_step<R: Wait>(
        &self,
        rt: &R,
        seat: &mut Seat<O::Deed, N>,
        call: O::Call,
    ) -> Result<(O::Answer, Option<SeatNo>), Refused<O::Call>>
        requires room { 0 < seat.old.room }
        ensures number { seat.new.number ≡ seat.old.number }
        ensures within { seat.old.number < N.parts }
        ensures past { seat.new.past ≡ seat.old.past }
        ensures room { length seat.new.list + seat.new.room ≡ length seat.old.list + seat.old.room }
        ensures adds { IfOk result (λ made. Adds seat.old.list seat.new.list
            (option_to_list (O.record_of seat.old.number call made.0))) }
        ensures later { IsLater seat.old.moment seat.new.moment seat.old.list seat.new.list }
        ensures step { IfOk result (λ made. (book : Booked O O.Base O.Deed) × (new : O)
            × IsBookOf O.seat_count_of N.parts N.cap book
            × IsSince O.leads O.gone_of seat.old.moment book
            × (book_refusal (O.refusal_of book.object seat.old.number call) (O.owed_of book.object) (O.need_of call)
            book ≡ None) × O.steps book.object seat.old.number call made.0 new) }
        ensures why { IfErr result (λ refused. (book : Booked O O.Base O.Deed)
            × IsBookOf O.seat_count_of N.parts N.cap book × IsSince O.leads O.gone_of seat.old.moment book
            × BookRefuses (O.refusal_of book.object seat.old.number call) (O.owed_of book.object) (O.need_of call)
            (O.spare book.object) (O.room_of call) book refused.why) }
        ensures back { IfErr result (λ refused. refused.back ≡ call) }
        ensures same { IfErr result (λ _. seat.new ≡ seat.old) }
    {
        let mut shared = self.hold_since(rt, &seat.moment());
        match shared.step(seat, call) {
            Ok(answer) => {
                let woken = shared.probe().wakes(&answer);
                Ok((answer, woken))
            }
            Err(refused) => Err(refused),
        }
    }
}

impl<O: Object, G: Gate, N: Ledgers> Place<O, G, N> {
    /// Wakes the gate of this seat, if one is given and is there.
    pub fn wake(&self, seat: Option<SeatNo>) {
        if let Some(seat) = seat {
            let at = seat.number() as usize;
            if at < self.gates.len() {
                self.gates[at].wake();
            }
        }
    }

    /// Notes whether a wait found the processors oversubscribed. It writes only what is new, since all threads read it.
    fn note(&self, oversubscribed: bool) {
        if self.oversubscribed.load(Ordering::SeqCst) != oversubscribed {
            self.oversubscribed.store(oversubscribed, Ordering::SeqCst);
        }
    }

    /// Waits at the gate of this seat, for `limit` milliseconds if there is a limit.
    pub fn wait<R: Wait + Clock>(
        &self,
        rt: &R,
        pending: &Pending<O::Deed, N>,
        limit: Option<u64>,
    ) -> Turn {
        let at = pending.number().number() as usize;
        let turn = self.gates[at].wait(rt, limit);
        self.note(self.gates[at].is_oversubscribed());
        turn
    }
}
