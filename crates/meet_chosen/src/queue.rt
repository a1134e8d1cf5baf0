//! A queue of the order that was chosen: its creation and its end. The calls in between are written once for all three
//! orders (`whichever`).

ghost use Rattle.std.specs.Prelude.{◌≡◌, ℕ, ◌+◌, ◌<◌, ◌≤◌, ◌^◌, None, List, length, map, vec_len, IfOk, IfErr};
ghost use Rattle.meet_tickets.specs.Limits.{most_records, most_seats};
ghost use Rattle.meet_tickets.specs.Refusals.{IsWhy};
ghost use Rattle.meet_place.specs.Backs.{list_of, AreOrdered, shares_in, folded_in};
ghost use Rattle.meet_place.specs.Ledgers.{AreOf};
ghost use Rattle.meet_place.specs.Seats.{AreFresh};
ghost use Rattle.meet_place.specs.declared.seats.Back.{Back};
ghost use Rattle.meet_sync.specs.Chronicles.{IsChronicle};
ghost use Rattle.meet_sync.specs.Faults.{QueueFaultFits};
ghost use Rattle.meet_sync.specs.Making.{making_refusal};
ghost use Rattle.meet_chosen.specs.Chosen.{order_of, kind_of, seats_in, ChosenFaultFits};
ghost use Rattle.meet_chosen.specs.declared.queue.ChosenQueue.TheVariants.{Fair as FairOne, Unfair as UnfairOne};
ghost use Rattle.meet_chosen.specs.declared.queue.ChosenQueue.TheVariants.{Transfer as TransferOne};

use meet_book::Book;
use meet_place::{Back, Gate, Ledgers, Pending, Seat, Turn};
use meet_queues::{Dual, Unbounded};
use meet_sync::{Chronicle, FairSeats, NewQueue, QueueFault, StackSeats, SyncQueue, TransferQueue};
use meet_tickets::{Deed, MOST_RECORDS, Marked, Order, Refused, SeatNo};
use std::alloc::Global;
use std::sync::Wait;
use std::time::Clock;

/// What the queue answers, whichever of the three it is: the call is written once.
macro_rules! whichever {
    ($chosen:expr, $queue:ident => $call:expr) => {
        match $chosen {
            ChosenQueue::Fair($queue) => $call,
            ChosenQueue::Unfair($queue) => $call,
            ChosenQueue::Transfer($queue) => $call,
        }
    };
}

pub(crate) use whichever;

/// A queue for threads of the order that was chosen. It has most of the calls that all three queues have. Any other
/// call, such as `transfer`, is made at the queue in the variant.
///
/// Java: `new SynchronousQueue(fair)`, or `new LinkedTransferQueue()`.
#[derive(Drop)]
pub enum ChosenQueue<T: Marked, G, N: Ledgers> {
    /// `new SynchronousQueue(true)`.
    Fair(SyncQueue<T, FairSeats<T>, G, N>),
    /// `new SynchronousQueue(false)`.
    Unfair(SyncQueue<T, StackSeats<T>, G, N>),
    /// `new LinkedTransferQueue()`.
    Transfer(TransferQueue<T, G, N>),
}

/// The log (the book) of a queue of the order that was chosen, out of its lock.
#[derive(Drop)]
pub enum ChosenBook<T: Marked> {
    /// The log of `new SynchronousQueue(true)`.
    Fair(Book<Dual<T, FairSeats<T>>>),
    /// The log of `new SynchronousQueue(false)`.
    Unfair(Book<Dual<T, StackSeats<T>>>),
    /// The log of `new LinkedTransferQueue()`.
    Transfer(Book<Unbounded<T>>),
}

impl<T: Marked, G, N: Ledgers> ChosenQueue<T, G, N> {
    /// Returns its order.
    pub fn order(&self) -> Order
        ensures { result ≡ order_of self.now }
    {
        match self {
            ChosenQueue::Fair(_) => Order::Fair,
            ChosenQueue::Unfair(_) => Order::Unfair,
            ChosenQueue::Transfer(_) => Order::Transfer,
        }
    }

    /// Returns the number of its seats.
    pub fn seats(&self) -> u64
        ensures count { result ≡ seats_in self.now }
        ensures parts { result ≡ N.parts }
        ensures limit { result ≤ most_seats }
    {
        whichever!(self, queue => queue.seats())
    }
}

impl<T: Marked, G: Drop, N: Ledgers> ChosenQueue<T, G, N> {
    /// Creates a queue of this order with a seat for each gate, numbered from 0. `cap` is the capacity of its log, in
    /// records.
    ///
    /// # Errors
    /// The parts are returned.
    /// - BadSizes, exactly if there is no gate or more than 65,536, or `cap` is 0 or more than 1,048,576.
    /// - Memory, if an allocation fails.
    ///
    /// # Example
    /// From `crates/meet_java_tests/src/whole.rt`, where `Shop` is a `ChosenQueue` of numbers:
    ///
    ///     match Shop::<G, N>::with_cap(alloc, order, parts, 1_048_576) {
    pub fn with_cap(
        alloc: Global,
        order: Order,
        parts: NewQueue<G>,
        cap: u64,
    ) -> Result<(Self, Vec<Seat<Deed, N>>), Refused<NewQueue<G>>>
        requires ledgers { AreOf N.name N.folds N.moments N.parts parts.blanks }
        requires one_each { N.parts ≡ vec_len parts.gates }
        requires cap { N.cap ≡ cap }
        ensures order { IfOk result (λ made. order_of made.0 ≡ order) }
        ensures count { IfOk result (λ made. seats_in made.0 ≡ vec_len parts.gates) }
        ensures seats { IfOk result (λ made. vec_len made.1 ≡ vec_len parts.gates) }
        ensures numbers { IfOk result (λ made. AreFresh made.1.items) }
        ensures sizes { IfOk result (λ _. making_refusal (vec_len parts.gates) cap ≡ None) }
        ensures why { IfErr result (λ refused. IsWhy (making_refusal (vec_len parts.gates) cap) refused.why) }
        ensures back { IfErr result (λ refused. refused.back ≡ parts) }
    {
        match order {
            Order::Fair => match SyncQueue::with_cap(alloc, parts, cap) {
                Ok((queue, seats)) => Ok((ChosenQueue::Fair(queue), seats)),
                Err(refused) => Err(refused),
            },
            Order::Unfair => match SyncQueue::with_cap(alloc, parts, cap) {
                Ok((queue, seats)) => Ok((ChosenQueue::Unfair(queue), seats)),
                Err(refused) => Err(refused),
            },
            Order::Transfer => match TransferQueue::with_cap(alloc, parts, cap) {
                Ok((queue, seats)) => Ok((ChosenQueue::Transfer(queue), seats)),
                Err(refused) => Err(refused),
            },
        }
    }

    /// Creates a queue of this order with a seat for each gate, numbered from 0. The capacity of its log is
    /// 1,048,576 records.
    ///
    /// # Errors
    /// The parts are returned.
    /// - BadSizes, exactly if there is no gate or more than 65,536.
    /// - Memory, if an allocation fails.
    ///
    /// Java: `new SynchronousQueue(fair)`, `new LinkedTransferQueue()`.
    pub fn new(
        alloc: Global,
        order: Order,
        parts: NewQueue<G>,
    ) -> Result<(Self, Vec<Seat<Deed, N>>), Refused<NewQueue<G>>>
        requires ledgers { AreOf N.name N.folds N.moments N.parts parts.blanks }
        requires one_each { N.parts ≡ vec_len parts.gates }
        requires cap { N.cap ≡ most_records }
        ensures order { IfOk result (λ made. order_of made.0 ≡ order) }
        ensures count { IfOk result (λ made. seats_in made.0 ≡ vec_len parts.gates) }
        ensures seats { IfOk result (λ made. vec_len made.1 ≡ vec_len parts.gates) }
        ensures numbers { IfOk result (λ made. AreFresh made.1.items) }
        ensures sizes { IfOk result (λ _. making_refusal (vec_len parts.gates) most_records ≡ None) }
        ensures why { IfErr result (λ refused. IsWhy (making_refusal (vec_len parts.gates) most_records) refused.why) }
        ensures back { IfErr result (λ refused. refused.back ≡ parts) }
    {
        Self::with_cap(alloc, order, parts, MOST_RECORDS)
    }
}

impl<T: Marked, G: Gate, N: Ledgers> ChosenQueue<T, G, N> {
    /// Waits at the gate (the parker) of this seat, for `limit` milliseconds if there is a limit, as `Queue::wait`.
    pub fn wait<R: Wait + Clock>(
        &self,
        rt: &R,
        pending: &Pending<Deed, N>,
        limit: Option<u64>,
    ) -> Turn {
        whichever!(self, queue => queue.wait(rt, pending, limit))
    }

    /// Wakes the thread that waits at the gate of this seat, or else the next that comes to wait, as `Queue::wake`.
    pub fn wake(&self, seat: SeatNo) {
        whichever!(self, queue => queue.wake(seat))
    }
}

/// The same fault, of the queue or the book of this order.
macro_rules! as_chosen {
    ($fault:expr, $order:ident) => {
        match $fault {
            QueueFault::SeatMissing {
                have,
                made,
                queue,
                seats,
            } => QueueFault::SeatMissing {
                have,
                made,
                queue: ChosenQueue::$order(queue),
                seats,
            },
            QueueFault::Memory { queue, seats } => QueueFault::Memory {
                queue: ChosenQueue::$order(queue),
                seats,
            },
            QueueFault::Differs {
                seat,
                index,
                book,
                seats,
            } => QueueFault::Differs {
                seat,
                index,
                book: ChosenBook::$order(book),
                seats,
            },
        }
    };
}

/// Why a queue in fair mode was not closed, as one of the order that was chosen.
fn fair_fault<T: Marked, G, N: Ledgers>(
    fault: QueueFault<SyncQueue<T, FairSeats<T>, G, N>, Book<Dual<T, FairSeats<T>>>, N>,
) -> QueueFault<ChosenQueue<T, G, N>, ChosenBook<T>, N>
    ensures { (count : ℕ) (seats : List (Back Deed N)) → QueueFaultFits count seats fault
        → ChosenFaultFits (FairOne count) seats result }
{
    as_chosen!(fault, Fair)
}

/// Why a queue in the default mode was not closed, as one of the order that was chosen.
fn unfair_fault<T: Marked, G, N: Ledgers>(
    fault: QueueFault<SyncQueue<T, StackSeats<T>, G, N>, Book<Dual<T, StackSeats<T>>>, N>,
) -> QueueFault<ChosenQueue<T, G, N>, ChosenBook<T>, N>
    ensures { (count : ℕ) (seats : List (Back Deed N)) → QueueFaultFits count seats fault
        → ChosenFaultFits (UnfairOne count) seats result }
{
    as_chosen!(fault, Unfair)
}

/// Why a queue that keeps its items was not closed, as one of the order that was chosen.
fn transfer_fault<T: Marked, G, N: Ledgers>(
    fault: QueueFault<TransferQueue<T, G, N>, Book<Unbounded<T>>, N>,
) -> QueueFault<ChosenQueue<T, G, N>, ChosenBook<T>, N>
    ensures { (count : ℕ) (seats : List (Back Deed N)) → QueueFaultFits count seats fault
        → ChosenFaultFits (TransferOne count) seats result }
{
    as_chosen!(fault, Transfer)
}

impl<T: Marked, G: Drop, N: Ledgers> ChosenQueue<T, G, N> {
    /// Closes the queue, as `Queue::close`: takes all seats, free or with an open ticket, in any order, and returns the
    /// final log (the chronicle) with the items that are left. It compares the records with the seats' receipts.
    ///
    /// # Errors
    /// - SeatMissing, exactly if fewer seats are given back than were made; queue and seats are returned.
    /// - Memory, if an allocation fails; queue and seats are returned.
    /// - Differs, at the least seat whose receipts aren't its records; the log (the book) and the seats are returned.
    pub fn close(
        self,
        alloc: Global,
        seats: Vec<Back<Deed, N>>,
    ) -> Result<Chronicle<T>, QueueFault<Self, ChosenBook<T>, N>>
        ensures history { IfOk result (λ c. IsChronicle T.mark_of (kind_of self) c.base c.records.items
            (map (λ list. list.items) c.lists.items) c.left.items) }
        ensures lists { IfOk result (λ c. (ordered : List (Back Deed N)) × AreOrdered seats.items ordered
            × (map (λ list. list.items) c.lists.items ≡ map list_of ordered)) }
        ensures count { IfOk result (λ c. vec_len c.lists ≡ seats_in self) }
        ensures shares { IfOk result (λ c. c.base.gone + length c.records.items ≡ shares_in seats.items) }
        ensures folded { IfOk result (λ c. c.base.gone ≡ folded_in seats.items) }
        ensures few { IfOk result (λ c. c.base.gone + length c.records.items < 2 ^ 64) }
        ensures cap { IfOk result (λ c. length c.records.items ≤ N.cap) }
        ensures fault { IfErr result (λ fault. ChosenFaultFits self seats.items fault) }
    {
        match self {
            ChosenQueue::Fair(queue) => match queue.close(alloc, seats) {
                Ok(chronicle) => Ok(chronicle),
                Err(fault) => Err(fair_fault(fault)),
            },
            ChosenQueue::Unfair(queue) => match queue.close(alloc, seats) {
                Ok(chronicle) => Ok(chronicle),
                Err(fault) => Err(unfair_fault(fault)),
            },
            ChosenQueue::Transfer(queue) => match queue.close(alloc, seats) {
                Ok(chronicle) => Ok(chronicle),
                Err(fault) => Err(transfer_fault(fault)),
            },
        }
    }
}
