//! A pool that one thread uses, call by call.

ghost use Rattle.std.specs.Prelude.{◌≡◌, ◌≢◌, ◌+◌, ◌^◌, ◌≤◌, ◌<◌, ◌++◌, ◌∷◌, [], None, length, vec_len, take, drop};
ghost use Rattle.std.specs.Prelude.{IfOk, IfErr, OnOk};
ghost use Rattle.std.specs.Prelude.{OnErr};
ghost use Rattle.std.specs.Vec.{vec_capacity};
ghost use Rattle.meet_tickets.specs.Refusals.{IsWhy};
ghost use Rattle.meet_tickets.specs.declared.refusals.Refusal.TheVariants.{Memory};
ghost use Rattle.pool_core.specs.Calls.{settings_refusal};
ghost use Rattle.pool_history.specs.OneThread.{silent, jobs_back, most_replies, returned, reply, told_receipt};

use super::{PoolOutcome, PoolReply, PoolRequest, PoolVerb};
use meet_book::{Book, Receipt};
use meet_tickets::{MOST_RECORDS, Record, Refusal, SeatNo};
use pool_core::{
    Counters, IdleEnd, PoolAnswer, PoolCall, PoolCore, PoolDeed, Settings, Task, book_of_pool,
};
use std::alloc::Global;
use std::marker::Model;

/// A pool that one thread uses, for any of its seats: a pool's core under a log (a book), whose jobs are their tags,
/// and the records that checkpoints compacted.
#[derive(Drop)]
pub struct PoolStepper {
    alloc: Global,
    book: Book<PoolCore<u64>>,
    past: Vec<Record<PoolDeed<u64>>>,
}

impl Model for PoolStepper {
    ghost use Rattle.pool_history.specs.OneThread.{Thread};
    ghost use Rattle.pool_history.specs.Inside.{thread, IsKept};

    ghost Value = { Thread };

    ghost view = { λ s. thread s };

    ghost invariant = { λ s. IsKept s };
}

/// The result of an answer that writes no record.
fn silent(answer: &PoolAnswer<u64>) -> PoolOutcome
    ensures { result ≡ silent answer.now }
{
    match answer {
        PoolAnswer::Idled(_, idle) => match idle {
            IdleEnd::Exit => PoolOutcome::Late,
            IdleEnd::Stay => PoolOutcome::Stays,
            IdleEnd::Late => PoolOutcome::Late,
        },
        _ => PoolOutcome::NotYet,
    }
}

/// The reply that reports a receipt, if there is one, or else this.
fn told(seat: SeatNo, silent: PoolOutcome, receipt: &Option<Receipt<PoolDeed<u64>>>) -> PoolReply
    ensures { result ≡ told_receipt seat silent receipt.now }
{
    match receipt {
        None => PoolReply {
            seat,
            outcome: silent,
        },
        Some(receipt) => {
            let number = receipt.place();
            let Record {
                seat: _,
                ticket,
                deed,
            } = receipt.entry();
            PoolReply {
                seat,
                outcome: PoolOutcome::Recorded(number, ticket, deed),
            }
        }
    }
}

/// Puts a reply after others, if there is room.
fn push_reserved(replies: &mut Vec<PoolReply>, reply: PoolReply)
    requires { vec_len replies.old < vec_capacity replies.old }
    ensures items { replies.new.items ≡ replies.old.items ++ reply ∷ [] }
    ensures count { vec_len replies.new ≡ vec_len replies.old + 1 }
    ensures capacity { vec_capacity replies.new ≡ vec_capacity replies.old }
{
    // Named in parts: as a whole, the checker doesn't find the types inside it.
    let PoolReply { seat, outcome } = reply;
    replies.push_reserved(PoolReply { seat, outcome });
}

/// The replies that return these jobs.
fn push_returned(replies: &mut Vec<PoolReply>, seat: SeatNo, jobs: &[Task<u64>])
    requires room { vec_len replies.old + length jobs.now ≤ vec_capacity replies.old }
    ensures items { replies.new.items ≡ replies.old.items ++ returned seat jobs.now }
{
    for task in jobs {
        push_reserved(
            replies,
            PoolReply {
                seat,
                outcome: PoolOutcome::Returned(task.ticket, task.job),
            },
        );
    }
}

/// The replies that return the jobs of an answer.
fn push_jobs_back(replies: &mut Vec<PoolReply>, seat: SeatNo, answer: &PoolAnswer<u64>)
    requires room { vec_len replies.old + length (jobs_back seat answer.now) ≤ vec_capacity replies.old }
    ensures items { replies.new.items ≡ replies.old.items ++ jobs_back seat answer.now }
{
    match answer {
        PoolAnswer::Returned(jobs) => push_returned(replies, seat, jobs.as_slice()),
        PoolAnswer::NotStarted(ticket, job) => match job {
            None => {}
            Some(tag) => push_reserved(
                replies,
                PoolReply {
                    seat,
                    outcome: PoolOutcome::Returned(*ticket, *tag),
                },
            ),
        },
        _ => {}
    }
}

/// The replies to a call: what its receipt reports, and the jobs that are returned.
fn push_answer(
    replies: &mut Vec<PoolReply>,
    seat: SeatNo,
    answer: PoolAnswer<u64>,
    receipt: &Option<Receipt<PoolDeed<u64>>>,
)
    requires room { vec_len replies.old + 1 + length (jobs_back seat answer) ≤ vec_capacity replies.old }
    ensures items { replies.new.items ≡ replies.old.items
        ++ told_receipt seat (silent answer) receipt.now ∷ jobs_back seat answer }
{
    push_reserved(replies, told(seat, silent(&answer), receipt));
    push_jobs_back(replies, seat, &answer);
}

/// How many replies a call has at most, if `kept` jobs are buffered.
fn most_replies(call: &PoolCall<u64>, kept: u64) -> u64
    requires { kept < 2 ^ 63 }
    ensures { result ≡ most_replies call.now kept }
{
    match call {
        PoolCall::ShutDownNow => kept + 1,
        _ => 2,
    }
}

/// The reply to a call that was refused.
fn refused(seat: SeatNo, why: Refusal) -> PoolReply
    ensures { result ≡ reply seat (PoolOutcome.Refused why) }
{
    PoolReply {
        seat,
        outcome: PoolOutcome::Refused(why),
    }
}

/// The reply to a call that was refused; a failed allocation has none.
fn push_refusal(replies: &mut Vec<PoolReply>, seat: SeatNo, why: Refusal) -> Result<(), Refusal>
    requires room { vec_len replies.old < vec_capacity replies.old }
    ensures told { OnOk result (replies.new.items ≡ replies.old.items ++ reply seat (PoolOutcome.Refused why) ∷ []) }
    ensures other { OnOk result (why ≢ Memory) }
    ensures memory { IfErr result (λ given. (given ≡ Memory) × (why ≡ Memory)) }
{
    if why == Refusal::Memory {
        return Err(Refusal::Memory);
    }
    push_reserved(replies, refused(seat, why));
    Ok(())
}

impl PoolStepper {
    ghost use Rattle.pool_core.specs.Histories.{no_base, IsLegalOn};
    ghost use Rattle.pool_history.specs.OneThread.{IsNew, IsCalled, IsCheckpoint, IsSame, IsTurn};
    ghost use Rattle.pool_history.specs.Pushing.{counters_of};

    /// Creates a pool of these settings, before any call.
    ///
    /// # Errors
    /// - BadSizes or PolicyNeedsBuffer, exactly if `settings_refusal` states it.
    /// - Memory, if an allocation fails.
    ///
    /// # Example
    /// From `crates/pool_run/src/trace.rt`:
    ///
    ///     let mut stepper = PoolStepper::new(alloc, settings)?;
    pub fn new(alloc: Global, settings: Settings) -> Result<Self, Refusal>
        ensures fresh { IfOk result (IsNew settings) }
        ensures fits { IfOk result (λ _. settings_refusal settings ≡ None) }
        ensures why { IfErr result (IsWhy (settings_refusal settings)) }
    {
        match book_of_pool(
            alloc,
            settings.sizes,
            settings.queue,
            settings.policy,
            MOST_RECORDS,
        ) {
            Ok(book) => Ok(PoolStepper {
                alloc,
                book,
                past: Vec::new(alloc),
            }),
            Err(why) => Err(why),
        }
    }

    /// Makes a call of the pool, if there is room for its replies.
    fn make(
        &mut self,
        seat: SeatNo,
        call: PoolCall<u64>,
        replies: &mut Vec<PoolReply>,
    ) -> Result<(), Refusal>
        requires none { replies.old.items ≡ [] }
        requires empty { vec_len replies.old ≡ 0 }
        ensures turn { OnOk result (IsCalled self.old seat call replies.new.items self.new) }
        ensures unchanged { OnErr result (IsSame self.old self.new) }
        ensures memory { IfErr result (λ why. why ≡ Memory) }
    {
        self.book.probe().stays_sound();
        let most = most_replies(&call, self.book.probe().kept());
        if replies.reserve(most as usize).is_err() {
            return Err(Refusal::Memory);
        }
        let (answer, receipt) = match self.book.step(seat, call) {
            Ok(made) => made,
            Err(refusal) => return push_refusal(replies, seat, refusal.why),
        };
        self.book.probe().stays_sound();
        push_answer(replies, seat, answer, &receipt);
        Ok(())
    }

    /// Compacts the records so far, and keeps them beside.
    fn fold(&mut self, seat: SeatNo, replies: &mut Vec<PoolReply>) -> Result<(), Refusal>
        requires none { replies.old.items ≡ [] }
        ensures turn { OnOk result (IsCheckpoint self.old seat replies.new.items self.new) }
        ensures unchanged { OnErr result (IsSame self.old self.new) }
        ensures memory { IfErr result (λ why. why ≡ Memory) }
    {
        if replies.reserve(1).is_err() {
            return Err(Refusal::Memory);
        }
        self.book.probe().stays_sound();
        let sizes = self.book.probe().settings().sizes;
        if seat.number() >= sizes.callers + sizes.maximum {
            push_reserved(replies, refused(seat, Refusal::NoSuchSeat));
            return Ok(());
        }
        let before = self.past.len();
        if self.past.extend_from_slice(self.book.records()).is_err() {
            return Err(Refusal::Memory);
        }
        match self.book.cut() {
            Ok(gone) => {
                push_reserved(
                    replies,
                    PoolReply {
                        seat,
                        outcome: PoolOutcome::Based(gone),
                    },
                );
                Ok(())
            }
            Err(why) => {
                self.past.truncate(before);
                push_refusal(replies, seat, why)
            }
        }
    }

    /// Makes a call, and puts its replies in the place of those in `replies`.
    ///
    /// # Errors
    /// - Memory, if an allocation fails: the pool is as it was.
    pub fn answer(
        &mut self,
        request: PoolRequest,
        replies: &mut Vec<PoolReply>,
    ) -> Result<(), Refusal>
        ensures turn { OnOk result (IsTurn self.old request replies.new.items self.new) }
        ensures unchanged { OnErr result (IsSame self.old self.new) }
        ensures memory { IfErr result (λ why. why ≡ Memory) }
    {
        replies.clear();
        let PoolRequest { seat, verb } = request;
        match verb {
            PoolVerb::Execute(tag) => self.make(seat, PoolCall::Execute(tag), replies),
            PoolVerb::Ready => self.make(seat, PoolCall::Ready, replies),
            PoolVerb::Follow => self.make(seat, PoolCall::Follow, replies),
            PoolVerb::Finish(answer) => self.make(seat, PoolCall::Finish(answer), replies),
            PoolVerb::Idle => self.make(seat, PoolCall::IdleEnd, replies),
            PoolVerb::Leave => self.make(seat, PoolCall::Leave, replies),
            PoolVerb::Failed => self.make(seat, PoolCall::StartFailed, replies),
            PoolVerb::ShutDown => self.make(seat, PoolCall::ShutDown, replies),
            PoolVerb::Now => self.make(seat, PoolCall::ShutDownNow, replies),
            PoolVerb::Counters => {
                if replies.reserve(1).is_err() {
                    return Err(Refusal::Memory);
                }
                push_reserved(
                    replies,
                    PoolReply {
                        seat,
                        outcome: PoolOutcome::Counted(self.counters()),
                    },
                );
                Ok(())
            }
            PoolVerb::Checkpoint => self.fold(seat, replies),
        }
    }

    /// Returns how many records were written, the compacted ones included.
    pub fn count(&self) -> u64
        ensures { result ≡ length self.now.written }
    {
        self.book.written()
    }

    /// Returns what the pool counts.
    pub fn counters(&self) -> Counters
        ensures { result ≡ counters_of self.now.pool.pool }
    {
        self.book.probe().counters()
    }

    /// Returns the compacted records, in order.
    pub fn past(&self) -> &[Record<PoolDeed<u64>>]
        ensures { result.now ≡ take self.now.gone self.now.written }
    {
        self.past.as_slice()
    }

    /// Returns the records since, in order.
    pub fn since(&self) -> &[Record<PoolDeed<u64>>]
        ensures { result.now ≡ drop self.now.gone self.now.written }
    {
        self.book.records()
    }

    /// States that all records are legal. It does nothing.
    pub fn stays_legal(&self)
        ensures { IsLegalOn self.now.pool.settings no_base self.now.written }
    {
        let _ = &self.past;
    }
}
