//! Reads the text of calls, line by line: it ends at the first line that can't be read, and keeps no text.

ghost use Rattle.std.specs.Prelude.{◌≡◌, ◌<◌, [], length, IfOk, IfSome, IsTrue};
ghost use Rattle.std.specs.Io.KnownBytes.{Consumes};
ghost use Rattle.meet_judge.specs.CallText.{call_text, calls_text, words_of};
ghost use Rattle.meet_judge.specs.Reading.{ReadsNext, Takes, TakesByte};

use crate::writing::{push_call, push_calls, words_of};
use meet_overlap::{Answer, Call, Calls, Patience, Queue, Returned, Verb};
use meet_run::RunFault;
use meet_run::text::faults::{at_line, cut_short};
use meet_run::text::grammar::read_order;
use meet_run::text::reading::LONGEST_LINE;
use meet_run::text::words::{behind_prefix, read_number};
use meet_tickets::{Kind, MOST_KEPT, Order, Refusal, SeatNo};
use std::alloc::Global;
use std::io::{ErrorKind, Read};

/// What stands before the first of these bytes, and what stands behind it, if it is there.
fn cut(text: &[u8], byte: u8) -> Option<(&[u8], &[u8])>
    ensures { IfSome result (λ parts. length parts.1.now < length text.now) }
{
    let at = text.iter().position(|b| *b == byte)?;
    let (before, rest) = text.split_at(at);
    match rest {
        [] => None,
        [_, behind @ ..] => Some((before, behind)),
    }
}

/// The first word of a line, and what stands behind the space after it.
fn word(line: &[u8]) -> (&[u8], &[u8]) {
    match cut(line, b' ') {
        Some(parts) => parts,
        None => (line, b""),
    }
}

/// The bound of a buffer, if it has one.
fn read_bound(rest: &[u8]) -> Option<Option<u64>> {
    if rest.is_empty() {
        return Some(None);
    }
    let bound = read_number(behind_prefix(b" ", rest)?)?;
    if 1 <= bound && bound <= MOST_KEPT {
        Some(Some(bound))
    } else {
        None
    }
}

/// The queue that the first line names.
fn read_queue(line: &[u8]) -> Option<Queue> {
    let words = behind_prefix(b"calls 1 ", line)?;
    if let Some(rest) = behind_prefix(b"buffer", words) {
        return match read_bound(rest) {
            Some(bound) => Some(Queue::Buffer(bound)),
            None => None,
        };
    }
    let order = read_order(words)?;
    Some(Queue::Place(Kind { order, bound: None }))
}

/// What a word with an item calls at a place.
fn giving(order: Order, word: &[u8], mark: u64) -> Option<Verb> {
    if order.keeps() {
        return match word {
            b"put" => Some(Verb::Keep(mark)),
            b"transfer" => Some(Verb::Give(Patience::Forever, mark)),
            b"try" => Some(Verb::Give(Patience::Now, mark)),
            b"try-for" => Some(Verb::Give(Patience::Timed, mark)),
            _ => None,
        };
    }
    match word {
        b"put" => Some(Verb::Give(Patience::Forever, mark)),
        b"offer" => Some(Verb::Give(Patience::Now, mark)),
        b"offer-for" => Some(Verb::Give(Patience::Timed, mark)),
        _ => None,
    }
}

/// What is called, and what stands behind it.
fn read_verb(order: Order, line: &[u8]) -> Option<(Verb, &[u8])> {
    let (name, rest) = word(line);
    match name {
        b"take" => return Some((Verb::Take(Patience::Forever), rest)),
        b"poll" => return Some((Verb::Take(Patience::Now), rest)),
        b"poll-for" => return Some((Verb::Take(Patience::Timed), rest)),
        _ => {}
    }
    let (number, rest) = word(rest);
    let number = read_number(number)?;
    if name == b"interrupt".as_slice() {
        return Some((Verb::Interrupt(SeatNo::new(number)?), rest));
    }
    let verb = giving(order, name, number)?;
    Some((verb, rest))
}

/// What was answered.
fn read_answer(verb: &Verb, line: &[u8]) -> Option<Answer> {
    let (name, rest) = word(line);
    match name {
        b"done" => match verb {
            Verb::Interrupt(_) => Some(Answer::Made),
            _ => Some(Answer::Went),
        },
        b"got" => {
            let mark = read_number(rest)?;
            Some(Answer::Got(mark))
        }
        b"none" => Some(Answer::Nothing),
        b"expired" => Some(Answer::Expired),
        b"interrupted" => Some(Answer::Interrupted),
        _ => None,
    }
}

/// The time by which a call was seen to wait, if the word tells one.
fn read_seen(word: &[u8]) -> Option<u64> {
    match word {
        [b'@', time @ ..] => read_number(time),
        _ => None,
    }
}

/// The call of a line, if it is one; it may be spelled otherwise.
fn read_call(order: Order, line: &[u8]) -> Option<Call> {
    let (seat, rest) = word(line);
    let (begin, rest) = word(rest);
    let (third, behind) = word(rest);
    let waits = read_seen(third);
    let rest = if waits.is_some() { behind } else { rest };
    let (end, rest) = word(rest);
    let Some((verb, rest)) = read_verb(order, rest) else {
        return None;
    };
    let returned = match end {
        b"-" => None,
        _ => Some(Returned {
            at: read_number(end)?,
            answer: read_answer(&verb, rest)?,
        }),
    };
    Some(Call {
        seat: SeatNo::new(read_number(seat)?)?,
        begin: read_number(begin)?,
        waits,
        returned,
        verb,
    })
}

/// What came of reading a line.
#[derive(Clone, Copy, PartialEq, Eq, Debug)]
pub(crate) enum Taken {
    /// A line was read, with the line feed that ends it.
    Line,
    /// The text has ended.
    End,
    /// The line is too long, or its line feed is missing.
    Faulty,
}

/// Reads a byte, if there is one. Fails with `ReadFault` if the read does, and with `Memory`.
fn next_byte<R: Read>(reader: &mut R) -> Result<Option<u8>, Refusal>
    ensures { IfOk result (TakesByte (R.remaining reader.old) (R.remaining reader.new)) }
{
    let mut byte = [0];
    match reader.read(&mut byte) {
        Ok(0) => Ok(None),
        Ok(_) => Ok(Some(byte[0])),
        Err(error) if error.kind() == ErrorKind::OutOfMemory => Err(Refusal::Memory),
        Err(_) => Err(Refusal::ReadFault),
    }
}

/// Reads the next line into `line`. Of a line that is too long it reads 129 bytes.
fn take_line<R: Read>(reader: &mut R, line: &mut Vec<u8>) -> Result<Taken, Refusal>
    ensures { IfOk result (Takes (R.remaining reader.old) (R.remaining reader.new) line.new.items) }
{
    line.clear();
    while line.len() <= LONGEST_LINE {
        let Some(byte) = next_byte(reader)? else {
            return Ok(if line.is_empty() {
                Taken::End
            } else {
                Taken::Faulty
            });
        };
        if line.push(byte).is_err() {
            return Err(Refusal::Memory);
        }
        if byte == b'\n' {
            return Ok(Taken::Line);
        }
    }
    Ok(Taken::Faulty)
}

/// Whether a line, with its end, is the one spelling of a call.
fn is_spelled(
    scratch: &mut Vec<u8>,
    order: Order,
    call: &Call,
    line: &[u8],
) -> Result<bool, Refusal>
    ensures { IfOk result (λ same. IsTrue same → line.now ≡ call_text order call.now) }
{
    scratch.clear();
    match push_call(scratch, order, call) {
        Ok(()) => Ok(scratch.as_slice() == line),
        Err(_) => Err(Refusal::Memory),
    }
}

/// Whether a line, with its end, is the first line of calls at a queue.
fn is_head(scratch: &mut Vec<u8>, queue: Queue, line: &[u8]) -> Result<bool, Refusal>
    ensures { IfOk result (λ same. IsTrue same → line.now ≡ calls_text queue []) }
{
    scratch.clear();
    match push_calls(scratch, queue, &[]) {
        Ok(()) => Ok(scratch.as_slice() == line),
        Err(_) => Err(Refusal::Memory),
    }
}

/// Whether a call may stand in a text of this queue: at a buffer no call is seen to wait.
fn may_stand(queue: Queue, call: &Call) -> bool {
    match queue {
        Queue::Place(_) => true,
        Queue::Buffer(_) => call.waits.is_none(),
    }
}

/// The call of a line, if it begins no earlier than this and is spelled as calls are.
fn spelled_call(
    scratch: &mut Vec<u8>,
    queue: Queue,
    begin: u64,
    line: &[u8],
) -> Result<Option<Call>, Refusal>
    ensures { IfOk result (λ found. IfSome found (λ call. line.now ≡ call_text (words_of queue) call)) }
{
    let order = words_of(queue);
    let [words @ .., b'\n'] = line else {
        return Ok(None);
    };
    let Some(call) = read_call(order, words) else {
        return Ok(None);
    };
    if call.begin < begin || !may_stand(queue, &call) {
        return Ok(None);
    }
    if is_spelled(scratch, order, &call, line)? {
        Ok(Some(call))
    } else {
        Ok(None)
    }
}

/// The queue that the first line names, if it is spelled as such lines are.
fn spelled_queue(scratch: &mut Vec<u8>, line: &[u8]) -> Result<Option<Queue>, Refusal>
    ensures { IfOk result (λ found. IfSome found (λ queue. line.now ≡ calls_text queue [])) }
{
    let [words @ .., b'\n'] = line else {
        return Ok(None);
    };
    let Some(queue) = read_queue(words) else {
        return Ok(None);
    };
    if is_head(scratch, queue, line)? {
        Ok(Some(queue))
    } else {
        Ok(None)
    }
}

/// Reads the first line.
fn read_head<R: Read>(
    reader: &mut R,
    line: &mut Vec<u8>,
    scratch: &mut Vec<u8>,
) -> Result<Queue, RunFault>
    ensures { IfOk result (λ queue. Consumes (R.remaining reader.old) (R.remaining reader.new) (calls_text queue [])) }
{
    match take_line(reader, line) {
        Ok(Taken::Line) => {}
        Ok(Taken::End) => return Err(at_line(Refusal::BadLine, 1)),
        Ok(Taken::Faulty) => return Err(at_line(Refusal::BadLine, 1)),
        Err(why) => return Err(cut_short(why)),
    }
    match spelled_queue(scratch, line.as_slice()) {
        Ok(Some(queue)) => Ok(queue),
        Ok(None) => Err(at_line(Refusal::BadLine, 1)),
        Err(why) => Err(cut_short(why)),
    }
}

/// Reads the line of this number, and adds its call. Whether there was one.
fn read_next<R: Read>(
    reader: &mut R,
    line: &mut Vec<u8>,
    scratch: &mut Vec<u8>,
    calls: &mut Calls,
    begin: u64,
    number: u64,
) -> Result<Option<u64>, RunFault>
    ensures { IfOk result (λ begin. ReadsNext begin (R.remaining reader.old) (R.remaining reader.new) calls.old calls.new) }
{
    match take_line(reader, line) {
        Ok(Taken::Line) => {}
        Ok(Taken::End) => return Ok(None),
        Ok(Taken::Faulty) => return Err(at_line(Refusal::BadLine, number)),
        Err(why) => return Err(cut_short(why)),
    }
    let queue = calls.queue;
    let call = match spelled_call(scratch, queue, begin, line.as_slice()) {
        Ok(Some(call)) => call,
        Ok(None) => return Err(at_line(Refusal::BadLine, number)),
        Err(why) => return Err(cut_short(why)),
    };
    let next = call.begin;
    if calls.push(call).is_err() {
        return Err(cut_short(Refusal::Memory));
    }
    Ok(Some(next))
}

/// Reads the text of calls, which stand by their begins, from a reader. It ends at the first line that can't be read.
///
/// # Errors
/// - `BadLine`, with the line: it isn't the one spelling of such a call, or its line feed is missing.
/// - `ReadFault` if a read fails.
/// - `Memory` if an allocation fails.
pub(crate) fn read_calls_from<R: Read>(alloc: Global, reader: &mut R) -> Result<Calls, RunFault>
    ensures spelled { IfOk result (λ read. IfSome (R.remaining reader.old) (λ input.
        input ≡ calls_text read.queue read.list.items)) }
{
    let mut line = Vec::new(alloc);
    let mut scratch = Vec::new(alloc);
    let queue = read_head(reader, &mut line, &mut scratch)?;
    let mut calls = Calls::none(alloc, queue);
    let mut begin = 0;
    for number in 2..u64::MAX {
        match read_next(reader, &mut line, &mut scratch, &mut calls, begin, number)? {
            Some(next) => begin = next,
            None => return Ok(calls),
        }
    }
    Err(cut_short(Refusal::ReadFault))
}

/// Reads the text of calls, which stand by their begins.
///
/// # Errors
/// - `BadLine`, with the line, if it isn't the one spelling of such a call, or its line feed is missing.
/// - `Memory`, if an allocation fails.
pub fn read_calls(alloc: Global, text: &[u8]) -> Result<Calls, RunFault>
    ensures spelled { IfOk result (λ read. text.now ≡ calls_text read.queue read.list.items) }
{
    let mut reader = text;
    read_calls_from(alloc, &mut reader)
}
