//! A place that one thread uses, call by call.

ghost use Rattle.std.specs.Prelude.{◌≡◌, ◌≢◌, None, [], ◌+◌, ◌^◌, ◌++◌, ◌<◌, length, vec_len, IsTrue, IsOk, IfOk};
ghost use Rattle.std.specs.Prelude.{IfErr, OnOk};
ghost use Rattle.std.specs.Prelude.{OnErr};
ghost use Rattle.std.specs.Vec.{vec_capacity};
ghost use Rattle.meet_history.specs.Stepping.{reply_of, unrecorded, back_of};
ghost use Rattle.meet_tickets.specs.declared.refusals.Refusal.TheVariants.{Memory};

use super::replies::push_reserved;
use super::{Call, Outcome, Probe, Reply, Setup, Verb};
use crate::checker::Standing;
use meet_book::{Book, Receipt};
use meet_queues::{AnyQueue, QueueAnswer, QueueCall};
use meet_tickets::{Base, Deed, Record, Refusal, SeatNo};
use std::alloc::Global;
use std::marker::Model;

mod drains;

/// A place that one thread uses, for any of its seats: a queue under a log (a book).
#[derive(Drop)]
pub struct Stepper {
    alloc: Global,
    setup: Setup,
    book: Book<AnyQueue>,
    cut: bool,
}

impl Model for Stepper {
    ghost use Rattle.std.specs.Prelude.{◌≡◌};
    ghost use Rattle.meet_core.specs.Queue.{count_of};
    ghost use Rattle.meet_history.specs.Stepping.{Stepping};

    ghost Value = { Stepping };

    ghost view = { λ s. record {
      setup = s.setup;
      queue = s.book.object.queue;
      base = s.book.base;
      cut = s.cut;
      records = s.book.records;
      room = s.book.room;
    } };

    ghost invariant = { λ s. (s.book.object.kind ≡ s.setup.kind) × (count_of s.book.object.queue ≡ s.setup.seats)
        × (s.book.cap ≡ s.setup.cap) };
}

/// The reply to a call that was refused; a failed allocation has none.
fn refused_unless_memory(seat: SeatNo, why: Refusal) -> Result<Reply, Refusal>
    ensures reply { IfOk result (λ reply. reply ≡ record { seat = seat; outcome = Outcome.Refused why }) }
    ensures other { IfOk result (λ _. why ≢ Memory) }
    ensures memory { IfErr result (λ given. (given ≡ Memory) × (why ≡ Memory)) }
{
    if why == Refusal::Memory {
        return Err(Refusal::Memory);
    }
    Ok(refused(seat, why))
}

/// The reply to a call that was refused.
fn refused(seat: SeatNo, why: Refusal) -> Reply
    ensures { result ≡ record { seat = seat; outcome = Outcome.Refused why } }
{
    Reply {
        seat,
        outcome: Outcome::Refused(why),
    }
}

/// The reply that tells a receipt, and a giver's item where the answer brings it back.
#[inline(always)]
fn reply_of(seat: SeatNo, receipt: &Receipt<Deed>, answer: &QueueAnswer<u64>) -> Reply
    ensures { result ≡ reply_of seat receipt.now (back_of answer.now) }
{
    Reply {
        seat,
        outcome: Outcome::of(receipt.place(), receipt.entry(), answer),
    }
}

/// What is told of a call that writes no record: a follow-up comes too early, a withdrawal too late.
fn unrecorded(call: &QueueCall<u64>) -> Outcome
    ensures { result ≡ unrecorded call.now }
{
    match call {
        QueueCall::FollowUp(_) => Outcome::NotYet,
        _ => Outcome::Late,
    }
}

impl Stepper {
    ghost use Rattle.meet_tickets.specs.Bases.{IsWellFormed, IsLegalOn};
    ghost use Rattle.meet_core.specs.QueueSteps.{queue_need, queue_refusal};
    ghost use Rattle.meet_history.specs.OneThread.{seen, start, turn, turn_of, standing_of};
    ghost use Rattle.meet_history.specs.Served.{serves, IsOne, IsAnswered};
    ghost use Rattle.meet_history.specs.Stepping.{place_of, HasWritten, Takes, TakesTurn, LacksMemory, HasRoom};
    ghost use Rattle.meet_history.specs.Stepping.{StaysButForRoom};
    ghost use Rattle.meet_history.specs.declared.one_thread.verbs.Verb.TheVariants.{Checkpoint, Look};
    ghost use Rattle.meet_history.specs.Stepping.{turn_of_call, refusal_at};
    ghost use Rattle.meet_history.specs.Limits.{IsInLimits};

    /// Creates the place of this setup, before any call.
    ///
    /// # Errors
    /// - Memory, if an allocation fails.
    pub fn new(alloc: Global, setup: Setup) -> Result<Self, Refusal>
        requires { IsInLimits setup }
        ensures place { IfOk result (λ stepper. place_of stepper ≡ start setup) }
        ensures setup { IfOk result (λ stepper. stepper.setup ≡ setup) }
        ensures written { IfOk result (λ stepper. HasWritten stepper []) }
        ensures memory { IfErr result (λ why. why ≡ Memory) }
    {
        let queue = AnyQueue::new(alloc, setup.kind, setup.seats, setup.first)?;
        let book = Book::new(alloc, queue, setup.cap);
        Ok(Stepper {
            alloc,
            setup,
            book,
            cut: false,
        })
    }

    /// Makes a call of the queue; a completion is of the seat's open ticket. The reply names the record, if there is
    /// one. Fails only if an allocation fails.
    #[inline(always)]
    fn make(&mut self, seat: SeatNo, call: QueueCall<u64>) -> Result<Reply, Refusal>
        requires opened { queue_need call ≡ 0 → queue_refusal self.old.queue seat call ≡ None }
        ensures turn { IfOk result (TakesTurn (turn_of_call self.old.setup (place_of self.old) seat call) self.old
            self.new) }
        ensures memory { IfErr result (LacksMemory
            (refusal_at self.old.setup (place_of self.old) seat call) self.old self.new) }
        ensures enough { HasRoom self.old → IsOk result }
    {
        let otherwise = unrecorded(&call);
        let (answer, receipt) = match self.book.step(seat, call) {
            Ok(made) => made,
            Err(refused) => return refused_unless_memory(seat, refused.why),
        };
        match receipt {
            Some(receipt) => Ok(reply_of(seat, &receipt, &answer)),
            None => Ok(Reply {
                seat,
                outcome: otherwise,
            }),
        }
    }

    /// What a look at the place sees.
    fn look(&self, probe: Probe) -> Outcome
        requires served { IsTrue (serves self.now.setup.kind.order (Look probe)) }
        ensures { result ≡ seen self.now.setup (place_of self.now) probe }
    {
        let queue = self.book.probe();
        match probe {
            Probe::Size => Outcome::Count(queue.size()),
            Probe::Room => Outcome::Count(queue.remaining_capacity()),
            Probe::Peek => Outcome::Peeked(queue.peek_mark()),
            Probe::Consumers => Outcome::Count(queue.waiting_consumers()),
        }
    }

    /// The reply to a call that has one.
    fn reply(&mut self, call: Call) -> Result<Reply, Refusal>
        requires served { IsTrue (serves self.old.setup.kind.order call.verb) }
        requires one { IsOne call.verb }
        ensures turn { IfOk result (TakesTurn (turn self.old.setup (place_of self.old) call) self.old self.new) }
        ensures unchanged { IfErr result (λ _. StaysButForRoom self.old self.new) }
        ensures memory { IfErr result (λ why. why ≡ Memory) }
        ensures enough { HasRoom self.old → IsOk result }
    {
        let Call { seat, verb } = call;
        match verb {
            Verb::Put(mark) => self.make(seat, QueueCall::Put(mark)),
            Verb::Offer(mark) => {
                if self.setup.kind.order.keeps() {
                    self.make(seat, QueueCall::Put(mark))
                } else {
                    self.make(seat, QueueCall::Offer(mark))
                }
            }
            Verb::Take => self.make(seat, QueueCall::Take),
            Verb::Poll => self.make(seat, QueueCall::Poll),
            Verb::Transfer(mark) => self.make(seat, QueueCall::Give(mark)),
            Verb::Try(mark) => self.make(seat, QueueCall::Offer(mark)),
            Verb::Follow => match self.book.probe().open_ticket(seat) {
                Some(ticket) => self.make(seat, QueueCall::FollowUp(ticket)),
                None => Ok(refused(seat, Refusal::NotOpen)),
            },
            Verb::Cancel => match self.book.probe().open_ticket(seat) {
                Some(ticket) => self.make(seat, QueueCall::Cancel(ticket)),
                None => Ok(refused(seat, Refusal::NotOpen)),
            },
            Verb::Expire => match self.book.probe().open_ticket(seat) {
                Some(ticket) => self.make(seat, QueueCall::Expire(ticket)),
                None => Ok(refused(seat, Refusal::NotOpen)),
            },
            Verb::Interrupt(target) => self.make(seat, QueueCall::Interrupt(target)),
            Verb::Look(probe) => Ok(Reply {
                seat,
                outcome: self.look(probe),
            }),
            _ => unreachable!(),
        }
    }

    /// Compacts the records so far, and returns how many were compacted since the first. Fails only if an allocation
    /// fails; then nothing has changed.
    fn checkpoint(&mut self, seat: SeatNo) -> Result<Reply, Refusal>
        ensures turn { IfOk result (TakesTurn (turn_of self.old.setup (place_of self.old) seat Checkpoint) self.old
            self.new) }
        ensures unchanged { IfErr result (λ _. StaysButForRoom self.old self.new) }
        ensures memory { IfErr result (λ why. why ≡ Memory) }
    {
        if seat.number() >= self.setup.seats {
            return Ok(refused(seat, Refusal::NoSuchSeat));
        }
        let _led = self.book.records().len();
        match self.book.cut() {
            Ok(gone) => {
                self.cut = true;
                Ok(Reply {
                    seat,
                    outcome: Outcome::Based(gone),
                })
            }
            Err(why) => refused_unless_memory(seat, why),
        }
    }

    /// Makes a call, and puts its replies at the end of `replies`.
    ///
    /// # Errors
    /// - Memory, if an allocation fails: nothing has changed, and the replies so far stay. A call that is one step
    ///   never fails if there is room for its reply, for two records and for a node in the wait queue.
    pub fn answer(&mut self, call: Call, replies: &mut Vec<Reply>) -> Result<(), Refusal>
        requires served { IsTrue (serves self.old.setup.kind.order call.verb) }
        ensures replies { OnOk result (replies.new.items ≡ replies.old.items
            ++ (turn self.old.setup (place_of self.old) call).replies) }
        ensures takes { OnOk result (Takes (turn self.old.setup (place_of self.old) call) self.old self.new) }
        ensures stay { OnErr result (replies.new.items ≡ replies.old.items) }
        ensures unchanged { OnErr result (StaysButForRoom self.old self.new) }
        ensures memory { IfErr result (λ why. why ≡ Memory) }
        ensures enough { IsOne call.verb → vec_len replies.old < vec_capacity replies.old → HasRoom self.old
            → IsOk result }
    {
        let Call { seat, verb } = call;
        if let Verb::Drain(most) = verb {
            return self.drain(seat, most, replies);
        }
        if replies.reserve(1).is_err() {
            return Err(Refusal::Memory);
        }
        match self.reply_to(Call { seat, verb }) {
            Ok(reply) => {
                push_reserved(replies, reply);
                Ok(())
            }
            Err(why) => Err(why),
        }
    }

    /// The reply to a call that isn't a drain.
    fn reply_to(&mut self, call: Call) -> Result<Reply, Refusal>
        requires served { IsTrue (serves self.old.setup.kind.order call.verb) }
        requires few { IsAnswered call.verb }
        ensures turn { IfOk result (TakesTurn (turn self.old.setup (place_of self.old) call) self.old self.new) }
        ensures unchanged { IfErr result (λ _. StaysButForRoom self.old self.new) }
        ensures memory { IfErr result (λ why. why ≡ Memory) }
        ensures enough { IsOne call.verb → HasRoom self.old → IsOk result }
    {
        let Call { seat, verb } = call;
        match verb {
            Verb::Checkpoint => self.checkpoint(seat),
            _ => self.reply(Call { seat, verb }),
        }
    }

    /// Returns how many records were written, the compacted ones included.
    pub fn count(&self) -> u64
        ensures { result ≡ self.now.base.gone + length self.now.records }
    {
        self.book.written()
    }

    /// Returns true if a checkpoint was made.
    pub fn is_cut(&self) -> bool
        ensures { result ≡ self.now.cut }
    {
        self.cut
    }

    /// Returns the status of the place's requests and items.
    pub fn standing(&self) -> Standing
        ensures { result ≡ standing_of self.now.setup (place_of self.now) }
    {
        let queue = self.book.probe();
        Standing {
            waiting: queue.waiting(),
            uncollected: queue.uncollected(),
            kept: queue.kept(),
        }
    }

    /// Returns the base, and the records since, in order. They are legal.
    pub fn into_parts(self) -> (Base, Vec<Record<Deed>>)
        ensures base { result.0 ≡ self.base }
        ensures records { result.1.items ≡ self.records }
        ensures well_formed { IsWellFormed self.setup.kind self.base }
        ensures legal { IsLegalOn self.setup.kind self.base self.records }
        ensures few { self.base.gone + length self.records < 2 ^ 64 }
    {
        let _written = self.count();
        let Stepper {
            alloc: _,
            setup: _,
            book,
            cut: _,
        } = self;
        let (_, base, records) = book.into_parts();
        (base, records)
    }
}
