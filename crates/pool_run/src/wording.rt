//! The text of a pool's replies and of its trace, one line each. If memory runs out, nothing is stated of what was
//! appended.

ghost use Rattle.std.specs.Prelude.{◌≡◌, ◌∷◌, ◌++◌, OnOk, decimal};
ghost use Rattle.pool_run.specs.Spelling.{timeout_text, sizes_text, queue_text, policy_text, settings_text};
ghost use Rattle.pool_run.specs.RecordSpelling.{pair_text, deed_text};
ghost use Rattle.pool_run.specs.Wording.{from_text, answer_text, ticket_text, counters_text, outcome_text};
ghost use Rattle.pool_run.specs.Wording.{pool_reply_line, pool_head_line, pool_record_line, pool_last_line};

use meet_run::text::wording::{push_number, push_numbered, push_pair, push_seat};
use meet_run::trace::wording::order_word;
use meet_tickets::{Record, SeatNo, Ticket};
use pool_core::{Counters, Policy, PoolDeed, PoolQueue, Settings, Sizes};
use pool_history::{PoolOutcome, PoolReply};
use std::alloc::AllocError;

/// Appends a word and two numbers.
fn push_two(out: &mut Vec<u8>, word: &[u8], first: u64, second: u64) -> Result<(), AllocError>
    ensures { OnOk result (out.new.items ≡ out.old.items ++ (word.now ++ pair_text first second)) }
{
    push_pair(out, word, first, b" ", second)
}

/// Appends a word, a ticket and two jobs.
fn push_three(
    out: &mut Vec<u8>,
    word: &[u8],
    ticket: Ticket,
    oldest: u64,
    job: u64,
) -> Result<(), AllocError>
    ensures { OnOk result (out.new.items
        ≡ out.old.items ++ (word.now ++ (decimal ticket ++ 32 ∷ pair_text oldest job))) }
{
    push_numbered(out, word, ticket.number())?;
    push_two(out, b" ", oldest, job)
}

/// Appends a deed.
fn push_deed(out: &mut Vec<u8>, deed: PoolDeed<u64>) -> Result<(), AllocError>
    ensures { OnOk result (out.new.items ≡ out.old.items ++ deed_text deed) }
{
    match deed {
        PoolDeed::Handed(worker, job) => push_two(out, b"handed ", worker, job),
        PoolDeed::Started(worker, job) => push_two(out, b"started ", worker, job),
        PoolDeed::Kept(job) => push_numbered(out, b"kept ", job),
        PoolDeed::KeptStart(worker, job) => push_two(out, b"kept-start ", worker, job),
        PoolDeed::Aborted(job) => push_numbered(out, b"aborted ", job),
        PoolDeed::CallerRuns(job) => push_numbered(out, b"caller-runs ", job),
        PoolDeed::Dropped(job) => push_numbered(out, b"dropped ", job),
        PoolDeed::DroppedOldest(ticket, oldest, job) => push_three(
            out,
            b"dropped-oldest ",
            ticket,
            oldest,
            job,
        ),
        PoolDeed::Runs(ticket, job) => push_two(out, b"runs ", ticket.number(), job),
        PoolDeed::Waits => out.extend_from_slice(b"waits"),
        PoolDeed::Exits => out.extend_from_slice(b"exits"),
        PoolDeed::Finished(answer) => push_numbered(out, b"finished ", answer),
        PoolDeed::IdleExit => out.extend_from_slice(b"idle-exit"),
        PoolDeed::Leaves => out.extend_from_slice(b"leaves"),
        PoolDeed::StartFailed => out.extend_from_slice(b"start-failed"),
        PoolDeed::ShutDown => out.extend_from_slice(b"shut-down"),
        PoolDeed::ShutDownNow(jobs) => push_numbered(out, b"shut-down-now ", jobs),
    }
}

/// Appends a record's line.
///
/// # Errors
/// - `AllocError`, if an allocation fails.
#[tactic(auto, unfolding(crate::specs::Wording::pool_record_line))]
pub fn push_pool_record(out: &mut Vec<u8>, entry: Record<PoolDeed<u64>>) -> Result<(), AllocError>
    ensures { OnOk result (out.new.items ≡ out.old.items ++ pool_record_line entry) }
{
    push_pair(out, b"", entry.seat.number(), b" ", entry.ticket.number())?;
    out.extend_from_slice(b" ")?;
    push_deed(out, entry.deed)?;
    out.extend_from_slice(b"\n")
}

/// Appends a word, a job and the job's ticket.
fn push_from(out: &mut Vec<u8>, word: &[u8], job: u64, ticket: Ticket) -> Result<(), AllocError>
    ensures { OnOk result (out.new.items ≡ out.old.items ++ (word.now ++ from_text job ticket)) }
{
    push_pair(out, word, job, b" from t", ticket.number())
}

/// Appends a deed as a reply reports it.
#[tactic(auto, unfolding(crate::specs::Wording::answer_text))]
fn push_answer(out: &mut Vec<u8>, deed: PoolDeed<u64>) -> Result<(), AllocError>
    ensures { OnOk result (out.new.items ≡ out.old.items ++ answer_text deed) }
{
    match deed {
        PoolDeed::Handed(worker, _) => push_numbered(out, b"handed ", worker),
        PoolDeed::Started(worker, _) => push_numbered(out, b"started ", worker),
        PoolDeed::Kept(_) => out.extend_from_slice(b"kept"),
        PoolDeed::KeptStart(worker, _) => push_numbered(out, b"kept-start ", worker),
        PoolDeed::DroppedOldest(ticket, oldest, _) => push_from(
            out,
            b"dropped-oldest ",
            oldest,
            ticket,
        ),
        PoolDeed::Runs(ticket, job) => push_from(out, b"runs ", job, ticket),
        _ => push_deed(out, deed),
    }
}

/// Appends a record's ticket, unless it is 0.
#[tactic(auto, unfolding(crate::specs::Wording::ticket_text))]
fn push_ticket(out: &mut Vec<u8>, ticket: Ticket) -> Result<(), AllocError>
    ensures { OnOk result (out.new.items ≡ out.old.items ++ ticket_text ticket) }
{
    let number = ticket.number();
    if number == 0 {
        Ok(())
    } else {
        push_numbered(out, b" t", number)
    }
}

/// Appends what a pool counts.
#[tactic(auto, unfolding(crate::specs::Wording::counters_text))]
fn push_counters(out: &mut Vec<u8>, counters: Counters) -> Result<(), AllocError>
    ensures { OnOk result (out.new.items ≡ out.old.items ++ counters_text counters) }
{
    push_pair(
        out,
        b" workers ",
        counters.workers,
        b" running ",
        counters.running,
    )?;
    push_pair(out, b" kept ", counters.kept, b" done ", counters.done)?;
    push_numbered(out, b" largest ", counters.largest)
}

/// Appends what came of a seat's call.
#[tactic(auto, unfolding(crate::specs::Wording::outcome_text))]
fn push_outcome(out: &mut Vec<u8>, seat: SeatNo, outcome: PoolOutcome) -> Result<(), AllocError>
    ensures { OnOk result (out.new.items ≡ out.old.items ++ outcome_text seat outcome) }
{
    match outcome {
        PoolOutcome::Recorded(number, ticket, deed) => {
            push_pair(out, b"", number, b" ", seat.number())?;
            push_ticket(out, ticket)?;
            out.extend_from_slice(b" ")?;
            push_answer(out, deed)
        }
        PoolOutcome::Returned(ticket, job) => {
            push_seat(out, seat, b" back ")?;
            push_from(out, b"", job, ticket)
        }
        PoolOutcome::NotYet => push_seat(out, seat, b" notyet"),
        PoolOutcome::Stays => push_seat(out, seat, b" stays"),
        PoolOutcome::Late => push_seat(out, seat, b" late"),
        PoolOutcome::Counted(counters) => {
            push_seat(out, seat, b"")?;
            push_counters(out, counters)
        }
        PoolOutcome::Based(gone) => {
            push_seat(out, seat, b" base ")?;
            push_number(out, gone)
        }
        PoolOutcome::Refused(why) => {
            push_seat(out, seat, b" refused ")?;
            out.extend_from_slice(why.name().as_bytes())
        }
    }
}

/// Appends a reply's line.
///
/// # Errors
/// - `AllocError`, if an allocation fails.
#[tactic(auto, unfolding(crate::specs::Wording::pool_reply_line))]
pub fn push_pool_reply(out: &mut Vec<u8>, reply: &PoolReply) -> Result<(), AllocError>
    ensures { OnOk result (out.new.items ≡ out.old.items ++ pool_reply_line reply.now) }
{
    push_outcome(out, reply.seat, reply.outcome)?;
    out.extend_from_slice(b"\n")
}

/// The word of a timeout, if there is one.
fn timeout_word(core_timeout: bool) -> &'static [u8]
    ensures { result.now ≡ timeout_text core_timeout }
{
    if core_timeout { b" timeout" } else { b"" }
}

/// Appends the sizes, each after its name.
fn push_sizes(out: &mut Vec<u8>, sizes: Sizes) -> Result<(), AllocError>
    ensures { OnOk result (out.new.items ≡ out.old.items ++ sizes_text sizes) }
{
    push_pair(out, b"pool core ", sizes.core, b" maximum ", sizes.maximum)?;
    push_pair(
        out,
        b" callers ",
        sizes.callers,
        b" keep ",
        sizes.keep_alive,
    )?;
    out.extend_from_slice(timeout_word(sizes.core_timeout))
}

/// Appends a queue by its words, each with a space in front.
fn push_queue(out: &mut Vec<u8>, queue: PoolQueue) -> Result<(), AllocError>
    ensures { OnOk result (out.new.items ≡ out.old.items ++ queue_text queue) }
{
    match queue {
        PoolQueue::Hand(order) => {
            out.extend_from_slice(b" hand ")?;
            out.extend_from_slice(order_word(order))
        }
        PoolQueue::Unbounded => out.extend_from_slice(b" unbounded"),
        PoolQueue::Bounded(most) => push_numbered(out, b" bounded ", most),
    }
}

/// A policy's word.
fn policy_word(policy: Policy) -> &'static [u8]
    ensures { result.now ≡ policy_text policy }
{
    match policy {
        Policy::Abort => b"abort",
        Policy::CallerRuns => b"caller-runs",
        Policy::Discard => b"discard",
        Policy::DiscardOldest => b"discard-oldest",
    }
}

/// Appends what a pool is made with.
fn push_settings(out: &mut Vec<u8>, settings: Settings) -> Result<(), AllocError>
    ensures { OnOk result (out.new.items ≡ out.old.items ++ settings_text settings) }
{
    push_sizes(out, settings.sizes)?;
    push_queue(out, settings.queue)?;
    out.extend_from_slice(b" policy ")?;
    out.extend_from_slice(policy_word(settings.policy))
}

/// Appends a trace's first line.
///
/// # Errors
/// - `AllocError`, if an allocation fails.
#[tactic(auto, unfolding(crate::specs::Wording::pool_head_line))]
pub fn push_pool_head(out: &mut Vec<u8>, settings: Settings) -> Result<(), AllocError>
    ensures { OnOk result (out.new.items ≡ out.old.items ++ pool_head_line settings) }
{
    out.extend_from_slice(b"trace 1 ")?;
    push_settings(out, settings)?;
    out.extend_from_slice(b"\n")
}

/// Appends the line at the end of a script: how many records there are, and what the pool counts.
///
/// # Errors
/// - `AllocError`, if an allocation fails.
#[tactic(auto, unfolding(crate::specs::Wording::pool_last_line))]
pub fn push_pool_last_line(
    out: &mut Vec<u8>,
    records: u64,
    counters: Counters,
) -> Result<(), AllocError>
    ensures { OnOk result (out.new.items ≡ out.old.items ++ pool_last_line records counters) }
{
    push_numbered(out, b"legal ", records)?;
    push_counters(out, counters)?;
    out.extend_from_slice(b"\n")
}
