//! A queue of any kind.

ghost use Rattle.std.specs.Prelude.{◌≡◌, ◌≤◌, ◌<◌, true, None, refl, IfOk, IfErr};
ghost use Rattle.meet_tickets.specs.declared.places.Side.TheVariants.{Taker};
ghost use Rattle.meet_tickets.specs.Meeting.{keeps, waiting_count, kept_count, count_on};
ghost use Rattle.meet_tickets.specs.BySeat.{nobody, open_ticket, settled_of};
ghost use Rattle.meet_core.specs.Queue.{seats_of, count_of};
ghost use Rattle.meet_tickets.specs.Bases.{no_base, IsBaseOf};
ghost use Rattle.meet_tickets.specs.Limits.{most_seats, last_ticket};
ghost use Rattle.meet_core.specs.Seen.{moment_of_queue};
ghost use Rattle.meet_core.specs.QueueSteps.{LeadsTo, queue_owed, queue_available, queue_unspent};
ghost use Rattle.meet_core.specs.QueueRoom.{roomy, roomy-leads, roomless, roomy-fresh};
ghost use Rattle.meet_core.specs.QueueSteps.{QueueStep, queue_refusal, queue_need, queue_room};
ghost use Rattle.meet_core.specs.QueueRecords.{queue_record};
ghost use Rattle.meet_core.specs.QueueRoom.{roomy-refusal, roomy-queue-steps, own-record};
ghost use Rattle.meet_core.specs.SeatCounts.{queue-count};
ghost use Rattle.meet_core.specs.declared.calls.queue_calls.QueueCall.TheVariants.{Poll};

use meet_book::{Bases, Drains, Object};
use meet_core::{Dual, QueueAnswer, QueueCall};
use meet_line::{FairLine, StackLine};
use meet_tickets::{Base, Deed, Kind, Order, Record, Refusal, SeatNo, Ticket};
use meet_transfer::Transfer;
use std::alloc::Global;
use std::marker::Model;

/// A queue of numbers that meets, waits and buffers as a place of its kind.
#[derive(Drop)]
pub struct AnyQueue {
    queue: ByKind,
}

/// The queues of all kinds.
#[derive(Drop)]
enum ByKind {
    Fair(Dual<u64, FairLine<u64>>),
    Unfair(Dual<u64, StackLine<u64>>),
    Transfer(Transfer<u64>),
}

impl Model for AnyQueue {
    ghost use Rattle.meet_queues.specs.Queues.{QueueOfKind, of_kind};

    ghost Value = { QueueOfKind };

    ghost view = { λ any. of_kind any.queue };
}

impl AnyQueue {
    ghost use Rattle.meet_tickets.specs.declared.refusals.Refusal.TheVariants.{Memory};
    ghost use Rattle.meet_tickets.specs.Meeting.{FitsBound};
    ghost use Rattle.meet_queues.specs.Probes.{size_of, remaining_of, peek_of};

    /// Creates a queue of this kind, with this many seats, at most 65,536, and this first ticket, 1 to 2^63 - 1. Only a
    /// transfer queue may have a bound, 1 to 1,048,576.
    ///
    /// # Errors
    /// - Memory, if an allocation fails.
    pub fn new(alloc: Global, kind: Kind, seats: u64, first: u64) -> Result<Self, Refusal>
        requires bound { FitsBound kind.order kind.bound }
        requires seats { seats ≤ most_seats }
        requires first_from { 0 < first }
        requires first_to { first ≤ last_ticket }
        ensures kind { IfOk result (λ any. any.kind ≡ kind) }
        ensures fresh { IfOk result (λ any. seats_of any.queue ≡ nobody) }
        ensures seats { IfOk result (λ any. count_of any.queue ≡ seats) }
        ensures unused { IfOk result (λ any. any.queue.last ≡ 0) }
        ensures first { IfOk result (λ any. any.queue.next ≡ first) }
        ensures memory { IfErr result (λ why. why ≡ Memory) }
    {
        let queue = match kind.order {
            Order::Fair => ByKind::Fair(Dual::new(alloc, seats, first)?),
            Order::Unfair => ByKind::Unfair(Dual::new(alloc, seats, first)?),
            Order::Transfer => ByKind::Transfer(match kind.bound {
                None => Transfer::new(alloc, seats, first)?,
                Some(most) => Transfer::with_bound(alloc, seats, first, most)?,
            }),
        };
        Ok(AnyQueue { queue })
    }

    /// Returns the seat's open ticket, if it has one.
    pub fn open_ticket(&self, seat: SeatNo) -> Option<Ticket>
        ensures { result ≡ open_ticket ((seats_of self.now.queue).holds seat) }
    {
        match &self.queue {
            ByKind::Fair(queue) => queue.open_ticket(seat),
            ByKind::Unfair(queue) => queue.open_ticket(seat),
            ByKind::Transfer(queue) => queue.open_ticket(seat),
        }
    }

    /// Returns how many pending requests stand in the wait queue.
    pub fn waiting(&self) -> u64
        ensures { result ≡ waiting_count self.now.queue.line }
    {
        match &self.queue {
            ByKind::Fair(queue) => queue.waiting(),
            ByKind::Unfair(queue) => queue.waiting(),
            ByKind::Transfer(queue) => queue.waiting(),
        }
    }

    /// Returns how many pending requests were matched or interrupted, and await their follow-up.
    pub fn uncollected(&self) -> u64
        ensures { result ≡ settled_of (count_of self.now.queue) (seats_of self.now.queue).holds }
    {
        match &self.queue {
            ByKind::Fair(queue) => queue.uncollected(),
            ByKind::Unfair(queue) => queue.uncollected(),
            ByKind::Transfer(queue) => queue.uncollected(),
        }
    }

    /// Returns how many items are buffered; a synchronous queue buffers none.
    pub fn kept(&self) -> u64
        ensures { result ≡ kept_count self.now.queue.line }
    {
        match &self.queue {
            ByKind::Fair(queue) => queue.kept(),
            ByKind::Unfair(queue) => queue.kept(),
            ByKind::Transfer(queue) => queue.kept(),
        }
    }

    /// Returns how many producers stand in the wait queue, buffered items included; a synchronous queue is always
    /// empty.
    ///
    /// Java: `Collection.size`.
    pub fn size(&self) -> u64
        ensures { result ≡ size_of self.now.kind.order self.now.queue.line }
    {
        match &self.queue {
            ByKind::Fair(queue) => queue.size(),
            ByKind::Unfair(queue) => queue.size(),
            ByKind::Transfer(queue) => queue.size(),
        }
    }

    /// Returns 0 of a synchronous queue, and 2,147,483,647 of a transfer queue.
    ///
    /// Java: `BlockingQueue.remainingCapacity`.
    pub fn remaining_capacity(&self) -> u64
        ensures { result ≡ remaining_of self.now.kind.order }
    {
        match &self.queue {
            ByKind::Fair(queue) => queue.remaining_capacity(),
            ByKind::Unfair(queue) => queue.remaining_capacity(),
            ByKind::Transfer(queue) => queue.remaining_capacity(),
        }
    }

    /// Returns the mark of the first producer's item; none of a synchronous queue.
    ///
    /// Java: `Queue.peek`.
    pub fn peek_mark(&self) -> Option<u64>
        ensures { result ≡ peek_of self.now.kind.order self.now.queue.line }
    {
        match &self.queue {
            ByKind::Fair(queue) => queue.peek_mark(),
            ByKind::Unfair(queue) => queue.peek_mark(),
            ByKind::Transfer(queue) => queue.peek_mark(),
        }
    }

    /// Returns how many consumers stand in the wait queue of a transfer queue.
    ///
    /// Java: `LinkedTransferQueue.getWaitingConsumerCount`.
    pub fn waiting_consumers(&self) -> u64
        requires { keeps self.now.kind.order ≡ true }
        ensures { result ≡ count_on Taker self.now.queue.line }
    {
        match &self.queue {
            ByKind::Transfer(queue) => queue.waiting_consumers(),
            _ => unreachable!(),
        }
    }
}

impl Object for AnyQueue {
    type Call = QueueCall<u64>;

    type Answer = QueueAnswer<u64>;

    type Deed = Deed;

    type Base = Base;

    ghost no_base = { no_base };

    ghost gone_of = { λ base. base.gone };

    ghost leads = { λ base records any. LeadsTo (λ mark. mark) any.kind base records any.queue };

    ghost steps = { λ old seat call answer new. (new.kind ≡ old.kind)
        × QueueStep (λ mark. mark) old.kind old.queue seat call answer new.queue };

    ghost record_of = { λ seat call answer. queue_record (λ mark. mark) seat call answer };

    ghost refusal_of = { λ any seat call. queue_refusal any.queue seat call };

    ghost owed_of = { λ any. queue_owed any.queue };

    ghost need_of = { λ call. queue_need call };

    ghost seat_count_of = { λ any. count_of any.queue };

    ghost room_of = { λ call. queue_room call };

    ghost spare = { λ any. any.queue.room };

    ghost with_room = { λ any room. record any { queue = roomy any.queue room } };

    ghost own_record = { λ seat call answer. own-record (λ mark. mark) seat call answer };

    ghost same_place = { λ any. refl };

    ghost same_seats = { λ old seat call answer new step.
        queue-count (λ mark. mark) old.kind old.queue seat call answer new.queue step.1 };

    ghost roomy_seats = { λ any room. refl };

    ghost same_refusal = { λ any room seat call. roomy-refusal any.queue room seat call };

    ghost same_owed = { λ any room. refl };

    ghost same_leads = { λ any room base records leads.
        roomy-leads (λ mark. mark) any.kind any.queue room base records leads };

    ghost same_steps = { λ any room seat call answer new need step.
        (step.0, roomy-queue-steps (λ mark. mark) any.kind any.queue room seat call answer new.queue need step.1) };

    ghost roomless = { λ call none. roomless call none };

    ghost fresh_owes = { λ any leads. roomy-fresh (λ mark. mark) any.kind any.queue leads };

    ghost none_gone = { refl };

    fn empty_base(alloc: Global) -> Base {
        Base::empty(alloc)
    }

    fn gone(base: &Base) -> u64 {
        base.gone
    }

    fn admit(&self, seat: SeatNo, call: &QueueCall<u64>) -> Result<(), Refusal> {
        match &self.queue {
            ByKind::Fair(queue) => Object::admit(queue, seat, call),
            ByKind::Unfair(queue) => Object::admit(queue, seat, call),
            ByKind::Transfer(queue) => Object::admit(queue, seat, call),
        }
    }

    fn need(call: &QueueCall<u64>) -> u64 {
        call.need()
    }

    fn room(call: &QueueCall<u64>) -> u64 {
        call.room()
    }

    fn owed(&self) -> u64 {
        match &self.queue {
            ByKind::Fair(queue) => queue.owed(),
            ByKind::Unfair(queue) => queue.owed(),
            ByKind::Transfer(queue) => queue.owed(),
        }
    }

    fn reserve(&mut self, room: u64) -> Result<(), Refusal> {
        match &mut self.queue {
            ByKind::Fair(queue) => queue.reserve(room),
            ByKind::Unfair(queue) => queue.reserve(room),
            ByKind::Transfer(queue) => queue.reserve(room),
        }
    }

    fn step(
        &mut self,
        seat: SeatNo,
        call: QueueCall<u64>,
    ) -> (QueueAnswer<u64>, Option<Record<Deed>>) {
        match &mut self.queue {
            ByKind::Fair(queue) => return queue.step(seat, call),
            ByKind::Unfair(queue) => return queue.step(seat, call),
            ByKind::Transfer(queue) => return queue.step(seat, call),
        }
    }
}

impl Bases for AnyQueue {
    ghost is_base = { λ any gone base. IsBaseOf (moment_of_queue (λ mark. mark) any.queue) gone base };

    fn base(&self, alloc: Global, gone: u64) -> Result<Base, Refusal> {
        match &self.queue {
            ByKind::Fair(queue) => queue.base(alloc, gone),
            ByKind::Unfair(queue) => queue.base(alloc, gone),
            ByKind::Transfer(queue) => queue.base(alloc, gone),
        }
    }

    fn copy_base(alloc: Global, base: &Base) -> Result<Base, Refusal> {
        base.copy(alloc)
    }
}

impl Drains for AnyQueue {
    ghost poll = { Poll };

    ghost available_of = { λ any. queue_available any.queue };

    ghost unspent_of = { λ any. queue_unspent any.queue };

    ghost poll_fits = { refl };

    fn available(&self) -> u64 {
        match &self.queue {
            ByKind::Fair(queue) => queue.available(),
            ByKind::Unfair(queue) => queue.available(),
            ByKind::Transfer(queue) => queue.available(),
        }
    }

    fn tickets_left(&self) -> u64 {
        match &self.queue {
            ByKind::Fair(queue) => queue.tickets_left(),
            ByKind::Unfair(queue) => queue.tickets_left(),
            ByKind::Transfer(queue) => queue.tickets_left(),
        }
    }

    fn admit_poll(&self, seat: SeatNo) -> Result<(), Refusal> {
        match &self.queue {
            ByKind::Fair(queue) => queue.admit_poll(seat),
            ByKind::Unfair(queue) => queue.admit_poll(seat),
            ByKind::Transfer(queue) => queue.admit_poll(seat),
        }
    }

    fn poll_call(&self) -> QueueCall<u64> {
        match &self.queue {
            ByKind::Fair(queue) => queue.poll_call(),
            ByKind::Unfair(queue) => queue.poll_call(),
            ByKind::Transfer(queue) => queue.poll_call(),
        }
    }

    fn met(&self) -> Option<SeatNo> {
        match &self.queue {
            ByKind::Fair(queue) => queue.met(),
            ByKind::Unfair(queue) => queue.met(),
            ByKind::Transfer(queue) => queue.met(),
        }
    }
}
