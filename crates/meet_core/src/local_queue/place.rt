//! The queue of one thread as a book's object, and as the place of a queue for threads.

ghost use Rattle.std.specs.Prelude.{◌≡◌, ◌≤◌, ◌<◌, None, [], List, length, refl, Option};
ghost use Rattle.meet_core.specs.Queue.{places_of, count_of, admit_refusal};
ghost use Rattle.meet_tickets.specs.Bases.{Based, no_base, IsBaseOf};
ghost use Rattle.std.specs.Vec.{vec_capacity};
ghost use Rattle.meet_tickets.specs.declared.records.Deed.{Deed as Told};
ghost use Rattle.meet_tickets.specs.declared.records.Record.{Record as Entered};
ghost use Rattle.meet_core.specs.Left.{left_in};
ghost use Rattle.meet_core.specs.LeftTold.{AreLeftOn};
ghost use Rattle.meet_core.specs.Seen.{moment_of_queue};
ghost use Rattle.meet_core.specs.QueueSteps.{LeadsTo, queue_owed, queue_available, queue_unspent};
ghost use Rattle.meet_core.specs.Bounded.{BoundedStep, one-kind-step, one-kind-leads};
ghost use Rattle.meet_core.specs.QueueSteps.{queue_refusal, queue_need, queue_room};
ghost use Rattle.meet_core.specs.QueueRecords.{queue_record};
ghost use Rattle.meet_core.specs.QueueRoom.{roomy, roomy-leads, roomless, roomy-fresh};
ghost use Rattle.meet_core.specs.QueueRoom.{roomy-refusal, roomy-queue-steps, own-record};
ghost use Rattle.meet_core.specs.SeatCounts.{queue-count};
ghost use Rattle.meet_core.specs.declared.calls.queue_calls.QueueCall.TheVariants.{Poll, Put};

use crate::calls::{
    Answered, QueueAnswer, QueueCall, QueueDrains, QueueLeaves, QueuePlace, admit_call,
    answered_put, make_call,
};
use crate::left::Left;
use crate::local_queue::{Buffers, LocalQueue, OneKind};
use meet_book::{Bases, Drains, Leaves, Object, Wakes};
use meet_line::Line;
use meet_tickets::{Base, Deed, Marked, Record, Refusal, SeatNo, Ticket};
use std::alloc::Global;

impl<T: Marked, L: Line<T>, K: Buffers<T, L>> Object for LocalQueue<T, L, K> {
    type Call = QueueCall<T>;

    type Answer = QueueAnswer<T>;

    type Deed = Deed;

    type Base = Base;

    ghost no_base = { no_base };

    ghost gone_of = { λ base. base.gone };

    ghost leads = { λ base records b. LeadsTo T.mark_of (K.kind b.bound) base records b.queue };

    ghost steps = { λ old seat call answer new. BoundedStep T.mark_of K.kind old seat call answer new };

    ghost record_of = { λ seat call answer. queue_record T.mark_of seat call answer };

    ghost refusal_of = { λ b seat call. queue_refusal b.queue seat call };

    ghost owed_of = { λ b. queue_owed b.queue };

    ghost need_of = { λ call. queue_need call };

    ghost seat_count_of = { λ b. count_of b.queue };

    ghost room_of = { λ call. queue_room call };

    ghost spare = { λ b. b.queue.room };

    ghost with_room = { λ b room. record b { queue = roomy b.queue room } };

    ghost own_record = { λ seat call answer. own-record T.mark_of seat call answer };

    ghost same_place = { λ b. refl };

    ghost same_seats = { λ old seat call answer new step.
        queue-count T.mark_of (K.kind old.bound) old.queue seat call answer new.queue step.1 };

    ghost roomy_seats = { λ b room. refl };

    ghost same_refusal = { λ b room seat call. roomy-refusal b.queue room seat call };

    ghost same_owed = { λ b room. refl };

    ghost same_leads = { λ b room base records leads.
        roomy-leads T.mark_of (K.kind b.bound) b.queue room base records leads };

    ghost same_steps = { λ b room seat call answer new need step. (
      step.0,
      roomy-queue-steps T.mark_of (K.kind b.bound) b.queue room seat call answer new.queue need
          step.1,
    ) };

    ghost roomless = { λ call none. roomless call none };

    ghost fresh_owes = { λ b leads. roomy-fresh T.mark_of (K.kind b.bound) b.queue leads };

    ghost none_gone = { refl };

    fn empty_base(alloc: Global) -> Base {
        Base::empty(alloc)
    }

    fn gone(base: &Base) -> u64 {
        base.gone
    }

    #[inline(always)]
    fn admit(&self, seat: SeatNo, call: &QueueCall<T>) -> Result<(), Refusal> {
        admit_call(&self.meetings, seat, call)
    }

    fn need(call: &QueueCall<T>) -> u64 {
        call.need()
    }

    fn room(call: &QueueCall<T>) -> u64 {
        call.room()
    }

    fn owed(&self) -> u64 {
        LocalQueue::owed(self)
    }

    fn reserve(&mut self, room: u64) -> Result<(), Refusal> {
        LocalQueue::reserve(self, room)
    }

    #[inline(always)]
    fn step(&mut self, seat: SeatNo, call: QueueCall<T>) -> (QueueAnswer<T>, Option<Record<Deed>>) {
        self.stays_sound();
        self.make(seat, call)
    }
}

impl<T: Marked, L: Line<T>, K: Buffers<T, L>> Bases for LocalQueue<T, L, K> {
    ghost is_base = { λ q gone base. IsBaseOf (moment_of_queue T.mark_of q.queue) gone base };

    fn base(&self, alloc: Global, gone: u64) -> Result<Base, Refusal> {
        LocalQueue::base(self, alloc, gone)
    }

    fn copy_base(alloc: Global, base: &Base) -> Result<Base, Refusal> {
        base.copy(alloc)
    }
}

impl<T: Marked, L: Line<T>, K: Buffers<T, L>> Drains for LocalQueue<T, L, K> {
    ghost poll = { Poll };

    ghost available_of = { λ b. queue_available b.queue };

    ghost unspent_of = { λ b. queue_unspent b.queue };

    ghost poll_fits = { refl };

    fn available(&self) -> u64 {
        self.givers()
    }

    fn tickets_left(&self) -> u64 {
        LocalQueue::tickets_left(self)
    }

    fn admit_poll(&self, seat: SeatNo) -> Result<(), Refusal> {
        admit_call(&self.meetings, seat, &QueueCall::Poll)
    }

    fn poll_call(&self) -> QueueCall<T> {
        self.stays_sound();
        QueueCall::Poll
    }

    fn met(&self) -> Option<SeatNo> {
        self.meetings.changed()
    }
}

impl<T: Marked, L: Line<T>, K: Buffers<T, L>> Wakes for LocalQueue<T, L, K> {
    fn wakes(&self, answer: &QueueAnswer<T>) -> Option<SeatNo> {
        if answer.frees() {
            self.meetings.changed()
        } else {
            None
        }
    }
}

impl<T: Marked, L: Line<T>, K: Buffers<T, L>> Leaves for LocalQueue<T, L, K> {
    type Left = Left<T>;

    ghost left_count = { λ b. length (left_in L.end b.queue) };

    ghost are_left = { λ base records left. AreLeftOn T.mark_of base records left };

    fn left(&self) -> u64 {
        self.meetings.left()
    }

    fn leave(self, empty: Vec<Left<T>>) -> Vec<Left<T>>
        requires empty { empty.items ≡ [] }
        requires room { length (left_in L.end self.queue) ≤ vec_capacity empty }
        ensures { (base : Based) (records : List (Entered Told))
            → LeadsTo T.mark_of (K.kind self.bound) base records self.queue
            → AreLeftOn T.mark_of base records result.items }
    {
        self.meetings.into_left_by_ticket(empty)
    }
}

impl<T: Marked, L: Line<T>, K: OneKind<T, L>> QueuePlace for LocalQueue<T, L, K> {
    type Item = T;

    ghost kind = { K.kind None };

    ghost queue_of = { λ b. b.queue };

    ghost is_step = { λ old seat call answer new step.
        one-kind-step T.mark_of K.kind K.one_kind old seat call answer new step };

    ghost is_record = { λ seat call answer. refl };

    ghost is_refusal = { λ b seat call. refl };

    ghost is_need = { λ call. refl };

    ghost is_count = { λ b. refl };

    ghost is_room = { λ b. refl };

    ghost is_roomy = { λ b room. refl };

    ghost is_no_base = { refl };

    ghost is_gone = { refl };

    ghost is_history = { λ base records b leads. one-kind-leads T.mark_of K.kind K.one_kind base records b leads };

    fn unused(alloc: Global, seats: u64) -> Result<Self, Refusal> {
        let queue = LocalQueue::with(alloc, seats, 1, None)?;
        Ok(queue)
    }

    #[inline(always)]
    fn awaits(&self, seat: SeatNo, ticket: Ticket, mark: Option<u64>) -> bool {
        LocalQueue::awaits(self, seat, ticket, mark)
    }

    fn destroy_empty(self) {
        LocalQueue::destroy_empty(self);
    }
}

impl<T: Marked, L: Line<T>, K: OneKind<T, L>> QueueDrains for LocalQueue<T, L, K> {
    ghost is_poll = { refl };

    ghost is_available = { λ b. refl };
}

impl<T: Marked, L: Line<T>, K: OneKind<T, L>> QueueLeaves for LocalQueue<T, L, K> {
    ghost is_left = { λ base records left are. are };
}

impl<T: Marked, L: Line<T>, K: Buffers<T, L>> LocalQueue<T, L, K> {
    /// Makes an admitted call, for which there is room.
    #[inline(always)]
    fn make(&mut self, seat: SeatNo, call: QueueCall<T>) -> Answered<T>
        requires admitted { queue_refusal self.old.queue seat call ≡ None }
        requires room { queue_room call ≤ self.old.queue.room }
        ensures step { BoundedStep T.mark_of K.kind self.old seat call result.0 self.new }
        ensures entry { result.1 ≡ queue_record T.mark_of seat call result.0 }
        ensures places { places_of self.new.queue ≡ places_of self.old.queue }
    {
        match call {
            QueueCall::Put(item) => self.make_put(seat, item),
            call => make_call(&mut self.meetings, seat, call),
        }
    }

    /// Makes an admitted put, for which there is room: it buffers its item or fails, or waits where nothing is buffered. It
    /// isn't inlined: `make` has the text of `make_call` already, and the compiler drops the attribute of what has grown
    /// too large.
    fn make_put(&mut self, seat: SeatNo, item: T) -> Answered<T>
        requires admitted { admit_refusal self.old.queue seat ≡ None }
        requires room { 0 < self.old.queue.room }
        ensures step { BoundedStep T.mark_of K.kind self.old seat (Put item) result.0 self.new }
        ensures entry { result.1 ≡ queue_record T.mark_of seat (Put item) result.0 }
        ensures places { places_of self.new.queue ≡ places_of self.old.queue }
    {
        if K::keeps_items(self.bound) {
            let mark = item.mark();
            let put = self.meetings.put_admitted(seat, item, K::most(self.bound));
            return answered_put(seat, mark, put);
        }
        make_call(&mut self.meetings, seat, QueueCall::Put(item))
    }
}
