//! The pool as a book's object.

ghost use Rattle.std.specs.Prelude.{◌≡◌, ◌+◌, ◌≤◌, None, Some, [], List, length, refl, ℕ};
ghost use Rattle.std.specs.Vec.{vec_capacity};
ghost use Rattle.meet_tickets.specs.declared.records.Record.{Record as Entered};
ghost use Rattle.pool_core.specs.declared.deeds.PoolDeed.{PoolDeed as Told};
ghost use Rattle.pool_core.specs.Pools.{owed, left_in};
ghost use Rattle.pool_core.specs.Histories.{Based, no_base};
ghost use Rattle.pool_core.specs.Bases.{LeadsTo, IsBaseOf, AreLeft, tagged_deed};
ghost use Rattle.pool_core.specs.Calls.{execute_deed, ready_deed};
ghost use Rattle.pool_core.specs.Placed.{PoolStep, pool_refusal, pool_need, pool_room, pool_record, follow_record};
ghost use Rattle.pool_core.specs.Placed.{idle_record, own-record, roomy-refusal, roomless, roomy-leads};
ghost use Rattle.pool_core.specs.Moves.{IsMade, roomy-made};
ghost use Rattle.pool_core.specs.Fresh.{fresh-owes};
ghost use Rattle.pool_core.specs.SettingsStay.{seats_with, seats-stay};

use crate::answers::{Executed, Followed, IdleEnd, Ready};
use crate::base::PoolBase;
use crate::calls::{PoolAnswer, PoolCall};
use crate::deeds::PoolDeed;
use crate::pool::PoolCore;
use crate::stages::Task;
use meet_book::{Bases, Leaves, Object, Wakes};
use meet_tickets::{Marked, Record, Refusal, SeatNo, Ticket};
use std::alloc::Global;

impl<J: Marked> Object for PoolCore<J> {
    type Call = PoolCall<J>;

    type Answer = PoolAnswer<J>;

    type Deed = PoolDeed<u64>;

    type Base = PoolBase;

    ghost no_base = { no_base };

    ghost gone_of = { λ base. base.gone };

    ghost leads = { λ base records p. LeadsTo J.mark_of base records p };

    ghost steps = { λ old seat call answer new. IsMade old seat call answer new };

    ghost record_of = { λ seat call answer. pool_record J.mark_of seat call answer };

    ghost refusal_of = { λ p seat call. pool_refusal p seat call };

    ghost owed_of = { λ p. owed p.pool };

    ghost need_of = { λ call. pool_need call };

    ghost seat_count_of = { λ p. seats_with p.settings };

    ghost room_of = { λ call. pool_room call };

    ghost spare = { λ p. p.room };

    ghost with_room = { λ p room. record p { room = room } };

    ghost own_record = { λ seat call answer. own-record J.mark_of seat call answer };

    ghost same_place = { λ p. refl };

    ghost same_seats = { λ old seat call answer new made. seats-stay old seat call answer new made };

    ghost roomy_seats = { λ p room. refl };

    ghost same_refusal = { λ p room seat call. roomy-refusal p room seat call };

    ghost same_owed = { λ p room. refl };

    ghost same_leads = { λ p room base records leads. roomy-leads J.mark_of base records p room leads };

    ghost same_steps = { λ p room seat call answer new need step. roomy-made p room seat call answer new need step };

    ghost roomless = { λ call none. roomless call none };

    ghost fresh_owes = { λ p leads. fresh-owes J.mark_of p leads };

    ghost none_gone = { refl };

    fn empty_base(alloc: Global) -> PoolBase {
        PoolBase::empty(alloc)
    }

    fn gone(base: &PoolBase) -> u64 {
        base.gone
    }

    #[inline(always)]
    fn admit(&self, seat: SeatNo, call: &PoolCall<J>) -> Result<(), Refusal> {
        match call {
            PoolCall::Execute(_) => self.admit_execute(seat),
            PoolCall::ShutDown => self.admit_shutdown(seat),
            PoolCall::ShutDownNow => self.admit_shutdown(seat),
            PoolCall::Ready => self.admit_starting(seat),
            PoolCall::Follow => self.admit_at_queue(seat),
            PoolCall::Finish(_) => self.admit_finish(seat),
            PoolCall::IdleEnd => self.admit_at_queue(seat),
            PoolCall::Leave => self.admit_leave(seat),
            PoolCall::StartFailed => self.admit_starting(seat),
        }
    }

    fn need(call: &PoolCall<J>) -> u64 {
        match call {
            PoolCall::Execute(_) => 6,
            PoolCall::ShutDown => 1,
            PoolCall::ShutDownNow => 1,
            PoolCall::Ready => 0,
            PoolCall::Follow => 0,
            PoolCall::Finish(_) => 0,
            PoolCall::IdleEnd => 0,
            PoolCall::Leave => 0,
            PoolCall::StartFailed => 0,
        }
    }

    fn room(call: &PoolCall<J>) -> u64 {
        match call {
            PoolCall::Execute(_) => 1,
            PoolCall::ShutDown => 0,
            PoolCall::ShutDownNow => 0,
            PoolCall::Ready => 0,
            PoolCall::Follow => 0,
            PoolCall::Finish(_) => 0,
            PoolCall::IdleEnd => 0,
            PoolCall::Leave => 0,
            PoolCall::StartFailed => 0,
        }
    }

    fn owed(&self) -> u64 {
        PoolCore::owed(self)
    }

    fn reserve(&mut self, room: u64) -> Result<(), Refusal> {
        PoolCore::reserve(self, room)
    }

    #[inline(always)]
    fn step(
        &mut self,
        seat: SeatNo,
        call: PoolCall<J>,
    ) -> (PoolAnswer<J>, Option<Record<PoolDeed<u64>>>) {
        self.stays_sound();
        let made = self.make(seat, call);
        self.stays_sound();
        made
    }
}

impl<J: Marked> Bases for PoolCore<J> {
    ghost is_base = { λ p gone base. IsBaseOf J.mark_of p gone base };

    fn base(&self, alloc: Global, gone: u64) -> Result<PoolBase, Refusal> {
        self.stays_sound();
        match PoolCore::base(self, alloc, gone) {
            Ok(base) => Ok(base),
            Err(why) => Err(why),
        }
    }

    fn copy_base(alloc: Global, base: &PoolBase) -> Result<PoolBase, Refusal> {
        base.copy(alloc)
    }
}

impl<J: Marked> Wakes for PoolCore<J> {
    fn wakes(&self, answer: &PoolAnswer<J>) -> Option<SeatNo> {
        self.woken(answer)
    }
}

impl<J: Marked> Leaves for PoolCore<J> {
    type Left = Task<J>;

    ghost left_count = { λ p. length (left_in p.pool) };

    ghost are_left = { λ base records left. AreLeft J.mark_of base records left };

    fn left(&self) -> u64 {
        PoolCore::left(self)
    }

    fn leave(self, empty: Vec<Task<J>>) -> Vec<Task<J>>
        requires empty { empty.items ≡ [] }
        requires room { length (left_in self.pool) ≤ vec_capacity empty }
        ensures { (base : Based) (records : List (Entered (Told ℕ))) → LeadsTo J.mark_of base records self
            → AreLeft J.mark_of base records result.items }
    {
        self.into_left_by_ticket(empty)
    }
}

impl<J: Marked> PoolCore<J> {
    /// Makes an admitted call, for which there is room.
    #[inline(always)]
    fn make(
        &mut self,
        seat: SeatNo,
        call: PoolCall<J>,
    ) -> (PoolAnswer<J>, Option<Record<PoolDeed<u64>>>)
        requires admitted { pool_refusal self.old seat call ≡ None }
        requires room { pool_room call ≤ self.old.room }
        ensures step { PoolStep self.old seat call result.0 self.new }
        ensures entry { result.1 ≡ pool_record J.mark_of seat call result.0 }
        ensures room { self.old.room ≤ self.new.room + pool_room call }
    {
        match call {
            PoolCall::Execute(job) => {
                let tag = job.mark();
                let (ticket, answer) = self.execute_admitted(seat, job);
                let deed = execute_deed(tag, &answer);
                (
                    PoolAnswer::Executed(ticket, answer),
                    recorded(seat, ticket, deed),
                )
            }
            PoolCall::ShutDown => {
                self.shut_admitted(seat);
                (PoolAnswer::WasShut, unticketed(seat, PoolDeed::ShutDown))
            }
            PoolCall::ShutDownNow => {
                let jobs = self.empty_admitted(seat);
                let count = jobs.len() as u64;
                (
                    PoolAnswer::Returned(jobs),
                    unticketed(seat, PoolDeed::ShutDownNow(count)),
                )
            }
            PoolCall::Ready => {
                let (ticket, answer) = self.ready(seat).unwrap();
                let deed = ready_deed(&answer);
                (
                    PoolAnswer::BeReady(ticket, answer),
                    recorded(seat, ticket, deed),
                )
            }
            PoolCall::Follow => {
                let (ticket, answer) = self.follow(seat).unwrap();
                let entry = follow_record(seat, ticket, &answer);
                (PoolAnswer::Followed(ticket, answer), entry)
            }
            PoolCall::Finish(answer) => {
                let ticket = self.finish(seat, answer).unwrap();
                (
                    PoolAnswer::Finished(ticket),
                    recorded(seat, ticket, PoolDeed::Finished(answer)),
                )
            }
            PoolCall::IdleEnd => {
                let (ticket, answer) = self.idle_end(seat).unwrap();
                let entry = idle_record(seat, ticket, answer);
                (PoolAnswer::Idled(ticket, answer), entry)
            }
            PoolCall::Leave => {
                let _ = self.leave(seat).unwrap();
                (PoolAnswer::Left, unticketed(seat, PoolDeed::Leaves))
            }
            PoolCall::StartFailed => {
                let (ticket, job) = self.start_failed(seat).unwrap();
                (
                    PoolAnswer::NotStarted(ticket, job),
                    recorded(seat, ticket, PoolDeed::StartFailed),
                )
            }
        }
    }
}

/// A record of this seat.
fn recorded(seat: SeatNo, ticket: Ticket, deed: PoolDeed<u64>) -> Option<Record<PoolDeed<u64>>>
    ensures { result ≡ Some (record { seat = seat; ticket = ticket; deed = deed }) }
{
    Some(Record { seat, ticket, deed })
}

/// A record of this seat that has no ticket.
fn unticketed(seat: SeatNo, deed: PoolDeed<u64>) -> Option<Record<PoolDeed<u64>>>
    ensures { result ≡ Some (record { seat = seat; ticket = 0; deed = deed }) }
{
    let ticket = Ticket::new(0).unwrap();
    Some(Record { seat, ticket, deed })
}

/// The deed of an answer to `execute`, its jobs by their tags.
fn execute_deed<J: Marked>(tag: u64, answer: &Executed<J>) -> PoolDeed<u64>
    ensures { (job : J) → J.mark_of job ≡ tag → result ≡ tagged_deed J.mark_of (execute_deed job answer.now) }
{
    match answer {
        Executed::Handed(worker) => PoolDeed::Handed(*worker, tag),
        Executed::Started(worker) => PoolDeed::Started(*worker, tag),
        Executed::Kept => PoolDeed::Kept(tag),
        Executed::KeptStart(worker) => PoolDeed::KeptStart(*worker, tag),
        Executed::Aborted(back) => PoolDeed::Aborted(back.mark()),
        Executed::CallerRuns(back) => PoolDeed::CallerRuns(back.mark()),
        Executed::Dropped(back) => PoolDeed::Dropped(back.mark()),
        Executed::DroppedOldest(ticket, old) => PoolDeed::DroppedOldest(*ticket, old.mark(), tag),
    }
}

/// The deed of an answer to `ready`, its job by its tag.
fn ready_deed<J: Marked>(answer: &Ready<J>) -> PoolDeed<u64>
    ensures { result ≡ tagged_deed J.mark_of (ready_deed answer.now) }
{
    match answer {
        Ready::Run(ticket, job) => PoolDeed::Runs(*ticket, job.mark()),
        Ready::Waits => PoolDeed::Waits,
        Ready::Exit => PoolDeed::Exits,
    }
}

/// The record of an answer to `follow`.
fn follow_record<J: Marked>(
    seat: SeatNo,
    ticket: Ticket,
    answer: &Followed<J>,
) -> Option<Record<PoolDeed<u64>>>
    ensures { result ≡ follow_record J.mark_of seat ticket answer.now }
{
    match answer {
        Followed::Run(own, job) => recorded(seat, ticket, PoolDeed::Runs(*own, job.mark())),
        Followed::Exit => recorded(seat, ticket, PoolDeed::Exits),
        Followed::NotYet => None,
    }
}

/// The record of an answer to `idle_end`.
fn idle_record(seat: SeatNo, ticket: Ticket, answer: IdleEnd) -> Option<Record<PoolDeed<u64>>>
    ensures { result ≡ idle_record seat ticket answer }
{
    match answer {
        IdleEnd::Exit => recorded(seat, ticket, PoolDeed::IdleExit),
        IdleEnd::Stay => None,
        IdleEnd::Late => None,
    }
}
