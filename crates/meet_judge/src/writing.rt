//! The text of calls. If memory runs out, nothing is stated of what was appended.

ghost use Rattle.std.specs.Prelude.{◌≡◌, ◌++◌, OnOk};
ghost use Rattle.meet_run.specs.Scripts.Spelling.{option_text};
ghost use Rattle.meet_overlap.specs.declared.calls.Verb.TheVariants.{Keep, Give, Take};
ghost use Rattle.meet_judge.specs.CallText.{verb_text, answer_text, seen_text, end_text, told_text, call_text};
ghost use Rattle.meet_judge.specs.CallText.{calls_text, lines_text, queue_text, words_of, is_interrupt, missed_text, waited_text};
ghost use Rattle.meet_judge.specs.CallText.{line_number, other_text, case_text, put_text, stuck_line, stuck_text};
ghost use Rattle.meet_judge.specs.CallText.{reason_text, refused_text};

use meet_overlap::{Answer, Call, Patience, Queue, Reason, Returned, Stuck, Verb};
use meet_run::text::wording::{push_number, push_numbered};
use meet_run::trace::wording::order_word;
use meet_tickets::Order;
use std::alloc::AllocError;

/// Appends what is given, and for how long.
#[tactic(auto, unfolding(crate::specs::CallText::verb_text))]
fn push_give(
    out: &mut Vec<u8>,
    order: Order,
    patience: Patience,
    mark: u64,
) -> Result<(), AllocError>
    ensures { OnOk result (out.new.items ≡ out.old.items ++ verb_text order (Give patience mark)) }
{
    let word: &[u8] = if order.keeps() {
        match patience {
            Patience::Now => b"try ",
            Patience::Forever => b"transfer ",
            Patience::Timed => b"try-for ",
        }
    } else {
        match patience {
            Patience::Now => b"offer ",
            Patience::Forever => b"put ",
            Patience::Timed => b"offer-for ",
        }
    };
    push_numbered(out, word, mark)
}

/// Appends what is kept.
#[tactic(auto, unfolding(crate::specs::CallText::verb_text))]
fn push_keep(out: &mut Vec<u8>, order: Order, mark: u64) -> Result<(), AllocError>
    ensures { OnOk result (out.new.items ≡ out.old.items ++ verb_text order (Keep mark)) }
{
    let word: &[u8] = if order.keeps() { b"put " } else { b"keep " };
    push_numbered(out, word, mark)
}

/// Appends what a taker calls.
#[tactic(auto, unfolding(crate::specs::CallText::verb_text))]
fn push_take(out: &mut Vec<u8>, order: Order, patience: Patience) -> Result<(), AllocError>
    ensures { OnOk result (out.new.items ≡ out.old.items ++ verb_text order (Take patience)) }
{
    match patience {
        Patience::Now => out.extend_from_slice(b"poll"),
        Patience::Forever => out.extend_from_slice(b"take"),
        Patience::Timed => out.extend_from_slice(b"poll-for"),
    }
}

/// Appends what is called.
#[tactic(auto, unfolding(crate::specs::CallText::verb_text))]
fn push_verb(out: &mut Vec<u8>, order: Order, verb: Verb) -> Result<(), AllocError>
    ensures { OnOk result (out.new.items ≡ out.old.items ++ verb_text order verb) }
{
    match verb {
        Verb::Keep(mark) => push_keep(out, order, mark),
        Verb::Give(patience, mark) => push_give(out, order, patience, mark),
        Verb::Take(patience) => push_take(out, order, patience),
        Verb::Interrupt(seat) => push_numbered(out, b"interrupt ", seat.number()),
    }
}

/// Whether an interrupt is called.
fn is_interrupt(verb: Verb) -> bool
    ensures { result ≡ is_interrupt verb }
{
    match verb {
        Verb::Interrupt(_) => true,
        _ => false,
    }
}

/// Appends what was answered to what was called.
#[tactic(auto, unfolding(crate::specs::CallText::answer_text))]
fn push_answer(out: &mut Vec<u8>, verb: Verb, answer: Answer) -> Result<(), AllocError>
    ensures { OnOk result (out.new.items ≡ out.old.items ++ answer_text verb answer) }
{
    match answer {
        Answer::Went => {
            out.extend_from_slice(if is_interrupt(verb) {
                b" went"
            } else {
                b" done"
            })
        }
        Answer::Got(mark) => push_numbered(out, b" got ", mark),
        Answer::Nothing => out.extend_from_slice(b" none"),
        Answer::Expired => out.extend_from_slice(b" expired"),
        Answer::Interrupted => out.extend_from_slice(b" interrupted"),
        Answer::Made => {
            out.extend_from_slice(if is_interrupt(verb) {
                b" done"
            } else {
                b" made"
            })
        }
    }
}

/// Appends the time by which a call was seen to wait, if it was.
#[tactic(auto, unfolding(crate::specs::CallText::seen_text))]
fn push_seen(out: &mut Vec<u8>, waits: Option<u64>) -> Result<(), AllocError>
    ensures { OnOk result (out.new.items ≡ out.old.items ++ seen_text waits) }
{
    match waits {
        None => Ok(()),
        Some(time) => {
            push_numbered(out, b"@", time)?;
            out.extend_from_slice(b" ")
        }
    }
}

/// Appends when a call ended.
#[tactic(auto, unfolding(crate::specs::CallText::end_text))]
fn push_end(out: &mut Vec<u8>, returned: Option<Returned>) -> Result<(), AllocError>
    ensures { OnOk result (out.new.items ≡ out.old.items ++ end_text returned) }
{
    match returned {
        None => out.extend_from_slice(b"- "),
        Some(returned) => {
            push_number(out, returned.at)?;
            out.extend_from_slice(b" ")
        }
    }
}

/// Appends what a call answered, if it ended.
#[tactic(auto, unfolding(crate::specs::CallText::told_text))]
fn push_told(out: &mut Vec<u8>, verb: Verb, returned: Option<Returned>) -> Result<(), AllocError>
    ensures { OnOk result (out.new.items ≡ out.old.items ++ told_text verb returned) }
{
    match returned {
        None => Ok(()),
        Some(returned) => push_answer(out, verb, returned.answer),
    }
}

/// Appends a call's line.
#[tactic(auto, unfolding(crate::specs::CallText::call_text))]
pub(crate) fn push_call(out: &mut Vec<u8>, order: Order, call: &Call) -> Result<(), AllocError>
    ensures { OnOk result (out.new.items ≡ out.old.items ++ call_text order call.now) }
{
    push_number(out, call.seat.number())?;
    out.extend_from_slice(b" ")?;
    push_number(out, call.begin)?;
    out.extend_from_slice(b" ")?;
    push_seen(out, call.waits)?;
    push_end(out, call.returned)?;
    push_verb(out, order, call.verb)?;
    push_told(out, call.verb, call.returned)?;
    out.extend_from_slice(b"\n")?;
    Ok(())
}

/// The order whose words the calls of a queue have: a buffer's are those of a synchronous queue.
pub(crate) fn words_of(queue: Queue) -> Order
    ensures { result ≡ words_of queue }
{
    match queue {
        Queue::Place(kind) => kind.order,
        Queue::Buffer(_) => Order::Fair,
    }
}

/// Appends a bound behind these words, if there is one.
fn push_bound(out: &mut Vec<u8>, words: &[u8], bound: Option<u64>) -> Result<(), AllocError>
    ensures { OnOk result (out.new.items ≡ out.old.items ++ option_text words.now bound) }
{
    match bound {
        None => Ok(()),
        Some(most) => push_numbered(out, words, most),
    }
}

/// Appends what a queue is.
#[tactic(auto, unfolding(crate::specs::CallText::queue_text))]
fn push_queue(out: &mut Vec<u8>, queue: Queue) -> Result<(), AllocError>
    ensures { OnOk result (out.new.items ≡ out.old.items ++ queue_text queue) }
{
    match queue {
        Queue::Place(kind) => {
            out.extend_from_slice(order_word(kind.order))?;
            push_bound(out, b" bound ", kind.bound)
        }
        Queue::Buffer(bound) => {
            out.extend_from_slice(b"buffer")?;
            push_bound(out, b" ", bound)
        }
    }
}

/// Appends the lines of calls.
fn push_lines(out: &mut Vec<u8>, order: Order, calls: &[Call]) -> Result<(), AllocError>
    ensures { OnOk result (out.new.items ≡ out.old.items ++ lines_text order calls.now) }
{
    for call in calls {
        push_call(out, order, call)?;
    }
    Ok(())
}

/// Appends the text of calls at a queue, whole.
///
/// # Errors
/// - `AllocError`, if an allocation fails.
pub fn push_calls(out: &mut Vec<u8>, queue: Queue, calls: &[Call]) -> Result<(), AllocError>
    ensures { OnOk result (out.new.items ≡ out.old.items ++ calls_text queue calls.now) }
{
    out.extend_from_slice(b"calls 1 ")?;
    push_queue(out, queue)?;
    out.extend_from_slice(b"\n")?;
    push_lines(out, words_of(queue), calls)
}

/// Appends these words, and the line of a call: the second line is that of the first call.
#[tactic(auto, unfolding(crate::specs::CallText::line_number))]
fn push_at(out: &mut Vec<u8>, words: &[u8], call: usize) -> Result<(), AllocError>
    ensures { OnOk result (out.new.items ≡ out.old.items ++ (words.now ++ line_number call)) }
{
    push_numbered(out, words, (call as u64).saturating_add(2))
}

/// Appends what another call does, by its line, if there is one, and ends the line.
#[tactic(auto, unfolding(crate::specs::CallText::other_text))]
fn push_other(out: &mut Vec<u8>, other: Option<usize>, does: &[u8]) -> Result<(), AllocError>
    ensures { OnOk result (out.new.items ≡ out.old.items ++ other_text other does.now) }
{
    match other {
        None => Ok(()),
        Some(call) => {
            push_at(out, b"; line ", call)?;
            out.extend_from_slice(does)
        }
    }
}

/// Appends a refusal of one call, and then what another call does.
#[tactic(auto, unfolding(crate::specs::CallText::case_text))]
fn push_case(
    out: &mut Vec<u8>,
    call: usize,
    item: u64,
    was: &[u8],
    other: Option<usize>,
    does: &[u8],
) -> Result<(), AllocError>
    ensures { OnOk result (out.new.items ≡ out.old.items ++ case_text call item was.now other does.now) }
{
    push_at(out, b"refused line ", call)?;
    push_numbered(out, b": item ", item)?;
    out.extend_from_slice(was)?;
    push_other(out, other, does)?;
    Ok(())
}

/// Appends that an item stood before another one.
#[tactic(auto, unfolding(crate::specs::CallText::put_text))]
fn push_put(out: &mut Vec<u8>, call: usize, item: u64) -> Result<(), AllocError>
    ensures { OnOk result (out.new.items ≡ out.old.items ++ put_text call item) }
{
    push_at(out, b"; line ", call)?;
    push_numbered(out, b" had put item ", item)?;
    out.extend_from_slice(b" before")
}

/// Appends which call waited, and with which item, if it gives one.
#[tactic(auto, unfolding(crate::specs::CallText::waited_text))]
fn push_waited(out: &mut Vec<u8>, call: usize, item: Option<u64>) -> Result<(), AllocError>
    ensures { OnOk result (out.new.items ≡ out.old.items ++ waited_text call item) }
{
    match item {
        None => {
            push_at(out, b"; line ", call)?;
            out.extend_from_slice(b" waited")
        }
        Some(item) => {
            push_at(out, b"; line ", call)?;
            push_numbered(out, b" waited with item ", item)
        }
    }
}

/// Appends that a call found nobody, and which one waited.
#[tactic(auto, unfolding(crate::specs::CallText::missed_text))]
fn push_missed(
    out: &mut Vec<u8>,
    caller: usize,
    waiting: usize,
    item: Option<u64>,
) -> Result<(), AllocError>
    ensures { OnOk result (out.new.items ≡ out.old.items ++ missed_text caller waiting item) }
{
    push_at(out, b"refused line ", caller)?;
    out.extend_from_slice(b": nobody was found")?;
    push_waited(out, waiting, item)?;
    Ok(())
}

/// Appends how far a search came; `count` is the number of all calls.
#[tactic(auto, unfolding(crate::specs::CallText::stuck_text))]
fn push_stuck(out: &mut Vec<u8>, stuck: Stuck, count: u64) -> Result<(), AllocError>
    ensures { OnOk result (out.new.items ≡ out.old.items ++ stuck_text stuck count) }
{
    push_line(out, stuck.call)?;
    push_numbered(out, b", explained ", stuck.explained as u64)?;
    push_numbered(out, b" of ", count)?;
    Ok(())
}

/// Appends the line of a call that can't be explained, if one is known.
#[tactic(auto, unfolding(crate::specs::CallText::stuck_line))]
fn push_line(out: &mut Vec<u8>, call: Option<usize>) -> Result<(), AllocError>
    ensures { OnOk result (out.new.items ≡ out.old.items ++ stuck_line call) }
{
    match call {
        None => out.extend_from_slice(b"refused"),
        Some(call) => push_at(out, b"refused line ", call),
    }
}

/// Appends why no history explains the calls, of which there are `count`.
#[tactic(auto, unfolding(crate::specs::CallText::reason_text))]
fn push_reason(out: &mut Vec<u8>, reason: Reason, count: u64) -> Result<(), AllocError>
    ensures { OnOk result (out.new.items ≡ out.old.items ++ reason_text reason count) }
{
    match reason {
        Reason::Ungiven { item, taker, giver } => push_case(
            out,
            taker,
            item,
            b" was got but never given in time",
            giver,
            b" gives it",
        ),
        Reason::Untaken { item, giver, taker } => push_case(
            out,
            giver,
            item,
            b" was handed over but never got in time",
            taker,
            b" gets it",
        ),
        Reason::Overtaken {
            item,
            taker,
            kept,
            giver,
        } => {
            push_case(out, taker, item, b" was got out of order", None, b"")?;
            push_put(out, giver, kept)
        }
        Reason::Doubled {
            item,
            first,
            second,
            giver,
        } => {
            push_case(
                out,
                second,
                item,
                b" was got twice",
                Some(first),
                b" got it too",
            )?;
            push_other(out, Some(giver), b" alone gives it")
        }
        Reason::Overlooked { item, taker, giver } => {
            push_at(out, b"refused line ", taker)?;
            out.extend_from_slice(b": nothing was found")?;
            push_put(out, giver, item)?;
            Ok(())
        }
        Reason::Missed {
            item,
            caller,
            waiting,
        } => push_missed(out, caller, waiting, item),
        Reason::Passed {
            item,
            caller,
            waiting,
            held,
        } => {
            push_case(out, caller, item, b" was got out of order", None, b"")?;
            push_waited(out, waiting, held)
        }
        Reason::Stuck(stuck) => push_stuck(out, stuck, count),
    }
}

/// Appends the line that says why no history explains the calls, of which there are `count`.
pub(crate) fn push_refused(out: &mut Vec<u8>, reason: Reason, count: u64) -> Result<(), AllocError>
    ensures { OnOk result (out.new.items ≡ out.old.items ++ refused_text reason count) }
{
    push_reason(out, reason, count)?;
    out.extend_from_slice(b"\n")
}
