//! A handle at a queue.

ghost use Rattle.std.specs.Prelude.{◌≡◌, Some, false, IsSome, IfOk, IfErr};
ghost use Rattle.meet_tickets.specs.Limits.{most_records};
ghost use Rattle.meet_sync.specs.Asking.{item_of};
ghost use Rattle.meet_sync.specs.Ending.{MayRunOut};
ghost use Rattle.meet_sync.specs.Told.{IsRequestWhy};
ghost use Rattle.meet_chosen.specs.Chosen.{order_of};
ghost use Rattle.meet_tasks.specs.Handles.{CalledAs, Keeps, kind_at};
ghost use Rattle.meet_tasks.specs.Outcomes.{EndFits};

use crate::calls::{ask, drain, interrupt, interrupt_all, ready, rotate, tend};
use crate::handle::QueueHandle;
use crate::ledgers::{QueueLedgers, SeatCount};
use crate::probes::Probes;
use crate::refused::CallRefused;
use meet_cells::ParkGate;
use meet_chosen::ChosenQueue;
use meet_sync::{Chapter, End, Moment, Request, Seat};
use meet_threads::{Labelled, Labels};
use meet_tickets::{Deed, Marked, Refusal};
use std::alloc::Global;
use std::sync::Wait;
use std::time::Clock;

/// A seat beside its queue. It is taken out only during a call.
#[derive(Drop)]
pub(crate) struct At<'q, T: Marked, N: QueueLedgers, R> {
    rt: &'q R,
    alloc: Global,
    queue: &'q ChosenQueue<T, ParkGate, N>,
    seats: SeatCount<N>,
    seat: Option<Seat<Deed, N>>,
    keeps_log: bool,
    labels: Labels,
    ghost order: { order_of queue.now ≡ N.order },
    ghost seated: { IsSome seat },
}

impl<'q, T: Marked, N: QueueLedgers, R> At<'q, T, N, R> {
    /// A handle with this seat at its queue. Its calls compact the log.
    pub(crate) fn new(
        rt: &'q R,
        alloc: Global,
        queue: &'q ChosenQueue<T, ParkGate, N>,
        seat: Seat<Deed, N>,
    ) -> Self
        requires order { order_of queue.now ≡ N.order }
        requires cap { N.cap ≡ most_records }
        ensures seat { result.seat ≡ Some seat }
        ensures compacts { result.keeps_log ≡ false }
        ensures unlabelled { result.labels.given ≡ 0 }
    {
        At {
            rt,
            alloc,
            queue,
            seats: SeatCount::new(queue.seats()),
            seat: Some(seat),
            keeps_log: false,
            labels: Labels::none(),
        }
    }

    /// The seat.
    pub(crate) fn into_seat(self) -> Seat<Deed, N> {
        self.seat.unwrap()
    }
}

impl<'q, T, N, R> Probes for At<'q, T, N, R>
where
    T: Marked,
    N: QueueLedgers,
    R: Wait,
{
    ghost kind = { kind_at N.order };

    fn keeps_items(&self) -> bool {
        self.queue.order().keeps()
    }

    fn size(&self) -> u64 {
        self.queue.size(self.rt)
    }

    fn peek_mark(&self) -> Option<u64> {
        self.queue.peek_mark(self.rt)
    }

    fn waiting_consumers(&self) -> Option<u64> {
        self.queue.waiting_consumers(self.rt)
    }
}

impl<'q, T, N, R> QueueHandle<T> for At<'q, T, N, R>
where
    T: Marked,
    N: QueueLedgers,
    R: Wait + Clock,
{
    type Runtime = R;

    type Moment = Moment<N>;

    ghost written_by = { λ moment. moment };

    ghost count = { N.parts };

    ghost cap = { N.cap };

    ghost handle_of = { λ at. record { seat = at.seat; keeps_log = at.keeps_log; labels = at.labels.given } };

    fn number(&self) -> u64 {
        self.seat.as_ref().unwrap().number().number()
    }

    fn seats(&self) -> u64 {
        self.seats.count()
    }

    fn moment(&self) -> Moment<N> {
        self.seat.as_ref().unwrap().moment()
    }

    fn learn(&mut self, moment: &Moment<N>) {
        let mut seat = self.seat.take().unwrap();
        seat.learn(moment);
        self.seat = Some(seat);
    }

    fn keep_log(&mut self) {
        self.keeps_log = true;
    }

    fn label<V>(&mut self, value: V) -> Labelled<V> {
        let number = self.seat.as_ref().unwrap().number();
        self.labels.label(number, value)
    }

    fn ask(&mut self, request: Request<T>, limit: Option<u64>) -> Result<End<T>, CallRefused<T>>
        ensures ended { IfOk result (λ end. CalledAs N.cap N.parts (kind_at N.order) (MayRunOut limit) T.mark_of
            (record { seat = self.old.seat; keeps_log = self.old.keeps_log; labels = self.old.labels.given })
            (record { seat = self.new.seat; keeps_log = self.new.keeps_log; labels = self.new.labels.given }) request end) }
        ensures fits { IfOk result (EndFits (item_of request)) }
        ensures same { IfErr result (λ _. Keeps N.cap N.parts
            (record { seat = self.old.seat; keeps_log = self.old.keeps_log; labels = self.old.labels.given })
            (record { seat = self.new.seat; keeps_log = self.new.keeps_log; labels = self.new.labels.given })) }
        ensures item { IfErr result (λ refused. refused.item ≡ item_of request) }
        ensures why { IfErr result (λ refused. IsRequestWhy refused.why) }
    {
        let seats = self.seats.count();
        let queue = self.queue;
        let seat = self.seat.take().unwrap();
        let seat = ready(self.rt, queue, self.keeps_log, seats, seat);
        // Each arm puts its seat back: if the match returned it, each call would copy it once more.
        match queue {
            ChosenQueue::Fair(queue) => {
                let (seat, answer) = ask(self.rt, queue, seat, request, limit);
                self.seat = Some(seat);
                answer
            }
            ChosenQueue::Unfair(queue) => {
                let (seat, answer) = ask(self.rt, queue, seat, request, limit);
                self.seat = Some(seat);
                answer
            }
            ChosenQueue::Transfer(queue) => {
                let (seat, answer) = ask(self.rt, queue, seat, request, limit);
                self.seat = Some(seat);
                answer
            }
        }
    }

    fn interrupt(&mut self, target: u64) -> Result<(), CallRefused<T>> {
        let seats = self.seats.count();
        let seat = self.seat.take().unwrap();
        let seat = ready(self.rt, self.queue, self.keeps_log, seats, seat);
        let (seat, answer) = interrupt(self.rt, self.queue, seat, target);
        self.seat = Some(seat);
        answer
    }

    fn interrupt_all(&mut self) -> Result<(), CallRefused<T>> {
        let seats = self.seats.count();
        let seat = self.seat.take().unwrap();
        let seat = ready(self.rt, self.queue, self.keeps_log, seats, seat);
        let (seat, answer) = interrupt_all(self.rt, self.queue, seat);
        self.seat = Some(seat);
        answer
    }

    fn drain(&mut self, max: u64) -> Result<Vec<T>, CallRefused<T>> {
        let seats = self.seats.count();
        let seat = self.seat.take().unwrap();
        let seat = ready(self.rt, self.queue, self.keeps_log, seats, seat);
        let (seat, answer) = drain(self.rt, self.alloc, self.queue, seat, max);
        self.seat = Some(seat);
        answer
    }

    fn tend(&mut self) -> Result<(), CallRefused<T>> {
        let seat = self.seat.take().unwrap();
        let (seat, answer) = tend(self.rt, self.queue, seat);
        self.seat = Some(seat);
        answer
    }

    fn rotate(&mut self) -> Result<Chapter, CallRefused<T>> {
        let seat = self.seat.take().unwrap();
        let (seat, answer) = rotate(self.rt, self.alloc, self.queue, seat);
        self.seat = Some(seat);
        answer
    }

    fn history(&self) -> Result<Chapter, Refusal> {
        self.queue.history(self.rt)
    }
}
