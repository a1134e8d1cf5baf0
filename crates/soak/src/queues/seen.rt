//! The calls of a round as `meet judge` reads them: what a seat called between two stamps, and what it was told.

ghost use Rattle.std.specs.Prelude.{◌≡◌, ◌++◌, [], None, OnOk};
ghost use Rattle.std.specs.List.Sorted.{IsNonDecreasingBy, IsPermutation};
ghost use Rattle.std.specs.Option.{option_map, option_or};
ghost use Rattle.std.specs.Io.KnownBytes.{Appends};
ghost use Rattle.meet_overlap.specs.declared.calls.Queue.TheVariants.{Place};
ghost use Rattle.meet_judge.specs.CallText.{calls_text};
ghost use Rattle.soak.specs.Seen.{patience_of, offering, transferring, verb_of_whole, verb_of_part, answer_of};
ghost use Rattle.soak.specs.Seen.{call_from, open_after, over_after, never_ending, begin_of};

use meet_judge::push_calls;
use meet_overlap::{Answer, Call, Patience, Queue, Returned, Verb};
use meet_run::text::output::write_whole;
use meet_shop::{Ask, Call as Whole, Told};
use meet_tickets::{Kind, Order, Refusal, SeatNo};
use std::alloc::{AllocError, Global};
use std::io::Write;

/// How long a call with this limit in milliseconds waits: with a limit of 0 it doesn't.
#[tactic(auto, unfolding(crate::specs::Seen::patience_of))]
fn patience_of(limit: u64) -> Patience
    ensures { result ≡ patience_of limit }
{
    if limit == 0 {
        Patience::Now
    } else {
        Patience::Timed
    }
}

/// What a put is, or an offer, which wait so long at a queue that keeps nothing. A transfer queue keeps their items.
#[tactic(auto, unfolding(crate::specs::Seen::offering))]
fn offering(order: Order, patience: Patience, item: u64) -> Verb
    ensures { result ≡ offering order patience item }
{
    if order.keeps() {
        Verb::Keep(item)
    } else {
        Verb::Give(patience, item)
    }
}

/// What a transfer is, which waits so long. A synchronous queue has none.
#[tactic(auto, unfolding(crate::specs::Seen::transferring))]
fn transferring(order: Order, patience: Patience, item: u64) -> Option<Verb>
    ensures { result ≡ transferring order patience item }
{
    if order.keeps() {
        Some(Verb::Give(patience, item))
    } else {
        None
    }
}

/// What a whole call is to a judge, if a queue of this order has it.
#[tactic(auto, unfolding(crate::specs::Seen::verb_of_whole))]
pub fn whole_verb(order: Order, call: Whole) -> Option<Verb>
    ensures { result ≡ verb_of_whole order call }
{
    match call {
        Whole::Put(item) => Some(offering(order, Patience::Forever, item)),
        Whole::Offer(item) => Some(offering(order, Patience::Now, item)),
        Whole::OfferFor(item, limit) => Some(offering(order, patience_of(limit), item)),
        Whole::Transfer(item) => transferring(order, Patience::Forever, item),
        Whole::TryTransfer(item) => transferring(order, Patience::Now, item),
        Whole::TransferFor(item, limit) => transferring(order, patience_of(limit), item),
        Whole::Take => Some(Verb::Take(Patience::Forever)),
        Whole::Poll => Some(Verb::Take(Patience::Now)),
        Whole::PollFor(limit) => Some(Verb::Take(patience_of(limit))),
    }
}

/// What a part of a call begins, to a judge: a request that its seat may take back is a call with a limit.
#[tactic(auto, unfolding(crate::specs::Seen::verb_of_part))]
pub fn part_verb(order: Order, ask: Ask) -> Option<Verb>
    ensures { result ≡ verb_of_part order ask }
{
    match ask {
        Ask::Put(item) => Some(offering(order, Patience::Timed, item)),
        Ask::Give(item) => Some(Verb::Give(Patience::Timed, item)),
        Ask::Offer(item) => Some(Verb::Give(Patience::Now, item)),
        Ask::Take => Some(Verb::Take(Patience::Timed)),
        Ask::Poll => Some(Verb::Take(Patience::Now)),
        Ask::Interrupt(target) => Some(Verb::Interrupt(SeatNo::new(target)?)),
        Ask::Follow => None,
        Ask::Cancel => None,
        Ask::Expire => None,
    }
}

/// What a call answered that was told this; none if it goes on, or never was a call.
#[tactic(auto, unfolding(crate::specs::Seen::answer_of))]
fn answer_of(told: Told) -> Option<Answer>
    ensures { result ≡ answer_of told }
{
    match told {
        Told::Kept => Some(Answer::Went),
        Told::Gave(_) => Some(Answer::Went),
        Told::Done => Some(Answer::Went),
        Told::Got(_, item) => Some(Answer::Got(item)),
        Told::Failed(_) => Some(Answer::Nothing),
        Told::TimedOut(_) => Some(Answer::Expired),
        Told::Back(_) => Some(Answer::Expired),
        Told::Stopped(_) => Some(Answer::Interrupted),
        Told::WasCut(_) => Some(Answer::Interrupted),
        Told::Cut(_) => Some(Answer::Made),
        Told::Flagged => Some(Answer::Made),
        Told::Parks(_) => None,
        Told::NotYet => None,
        Told::Late => None,
        Told::Refused(_, _) => None,
        Told::Unasked => None,
    }
}

/// A call that began at this stamp.
pub fn begun(seat: SeatNo, begin: u64, verb: Option<Verb>) -> Option<Call>
    ensures { result ≡ option_map (call_from seat begin) verb }
{
    Some(Call {
        seat,
        begin,
        waits: None,
        returned: None,
        verb: verb?,
    })
}

/// The calls of seats as a judge sees them: those that ended or never will, and one that goes on.
#[derive(Drop)]
pub struct Log {
    pub over: Vec<Call>,
    pub open: Option<Call>,
}

impl Log {
    /// No calls yet.
    pub fn new(alloc: Global) -> Log
        ensures over { result.over.items ≡ [] }
        ensures open { result.open ≡ None }
    {
        Log {
            over: Vec::new(alloc),
            open: None,
        }
    }

    /// The seat was told this at this stamp, by the call that goes on, or else by this one, if there is any. Fails only
    /// if an allocation fails.
    #[tactic(auto, unfolding(crate::specs::Seen::open_after, crate::specs::Seen::over_after))]
    pub fn note(&mut self, begun: Option<Call>, end: u64, told: Told) -> Result<(), AllocError>
        ensures open { OnOk result (self.new.open ≡ open_after (option_or self.old.open begun) (answer_of told)) }
        ensures over { OnOk result (self.new.over.items
            ≡ self.old.over.items ++ over_after (option_or self.old.open begun) end (answer_of told)) }
    {
        let Some(call) = self.open.or(begun) else {
            return Ok(());
        };
        match answer_of(told) {
            None => {
                self.open = Some(call);
                Ok(())
            }
            Some(answer) => {
                self.open = None;
                let returned = Some(Returned { at: end, answer });
                self.over
                    .extend_from_slice([Call { returned, ..call }].as_slice())
            }
        }
    }

    /// The call that goes on never ends. Fails only if an allocation fails.
    #[tactic(auto, unfolding(crate::specs::Seen::never_ending))]
    fn end(&mut self) -> Result<(), AllocError>
        ensures open { self.new.open ≡ None }
        ensures over { OnOk result (self.new.over.items ≡ self.old.over.items ++ never_ending self.old.open) }
    {
        match self.open.take() {
            None => Ok(()),
            Some(call) => self.over.extend_from_slice([call].as_slice()),
        }
    }

    /// Adds the calls of other seats; none of them goes on. Fails only if an allocation fails.
    pub fn add(&mut self, other: Log) -> Result<(), AllocError>
        ensures open { self.new.open ≡ None }
        ensures over { OnOk result (self.new.over.items ≡ (self.old.over.items ++ never_ending self.old.open)
            ++ (other.over.items ++ never_ending other.open)) }
    {
        let mut other = other;
        self.end()?;
        other.end()?;
        self.over.extend_from_slice(other.over.as_slice())
    }
}

/// Puts calls in the order in which they began.
pub fn sort(calls: &mut Vec<Call>)
    ensures sorted { IsNonDecreasingBy begin_of calls.new.items }
    ensures same { IsPermutation calls.old.items calls.new.items }
{
    calls.sort_unstable_by_key(|call| call.begin);
}

/// Writes the text of calls at a queue.
///
/// # Errors
/// - `WriteFault` if a write fails.
/// - `Memory` if an allocation fails.
pub fn write_calls<W: Write>(
    alloc: Global,
    order: Order,
    calls: &[Call],
    writer: &mut W,
) -> Result<(), Refusal>
    ensures { OnOk result (Appends (W.contents writer.old) (W.contents writer.new)
        (calls_text (Place (record { order = order; bound = None })) calls.now)) }
{
    let mut text = Vec::new(alloc);
    let queue = Queue::Place(Kind { order, bound: None });
    if push_calls(&mut text, queue, calls).is_err() {
        return Err(Refusal::Memory);
    }
    write_whole(writer, text.as_slice())
}
