//! The grammar of a script's lines.

ghost use Rattle.std.specs.Prelude.{◌≡◌, IfSome};
ghost use Rattle.meet_run.specs.Scripts.Spelling.{FitsCall};
ghost use Rattle.meet_run.specs.Scripts.Grammar.{bare_verb_of, interrupt_of, numbered_verb_of, verb_of, verb_behind};
ghost use Rattle.meet_run.specs.Scripts.Grammar.{call_in, served_call, call_of};

use crate::text::grammar::read_seat;
use crate::text::reading::LONGEST_LINE;
use crate::text::words::{read_number, split_word};
use meet_history::{Call, Probe, Verb, is_served};
use meet_tickets::{Order, SeatNo};

/// The verb of a word that stands alone.
#[tactic(auto, unfolding(crate::specs::Scripts::Grammar::bare_verb_of))]
fn bare_verb(word: &[u8]) -> Option<Verb>
    ensures { result ≡ bare_verb_of word.now }
{
    if word == b"take".as_slice() {
        Some(Verb::Take)
    } else if word == b"poll".as_slice() {
        Some(Verb::Poll)
    } else if word == b"follow".as_slice() {
        Some(Verb::Follow)
    } else if word == b"cancel".as_slice() {
        Some(Verb::Cancel)
    } else if word == b"expire".as_slice() {
        Some(Verb::Expire)
    } else if word == b"size".as_slice() {
        Some(Verb::Look(Probe::Size))
    } else if word == b"room".as_slice() {
        Some(Verb::Look(Probe::Room))
    } else if word == b"peek".as_slice() {
        Some(Verb::Look(Probe::Peek))
    } else if word == b"consumers".as_slice() {
        Some(Verb::Look(Probe::Consumers))
    } else if word == b"checkpoint".as_slice() {
        Some(Verb::Checkpoint)
    } else {
        None
    }
}

/// The interrupt of the seat with this number.
#[tactic(auto, unfolding(crate::specs::Scripts::Grammar::interrupt_of, crate::specs::Texts::Grammar::seat_in))]
fn interrupt(number: u64) -> Option<Verb>
    ensures { result ≡ interrupt_of number }
{
    let target = SeatNo::new(number)?;
    Some(Verb::Interrupt(target))
}

/// The verb of a word with a number behind it.
#[tactic(auto, unfolding(crate::specs::Scripts::Grammar::numbered_verb_of))]
fn numbered_verb(word: &[u8], number: u64) -> Option<Verb>
    ensures { result ≡ numbered_verb_of word.now number }
{
    if word == b"put".as_slice() {
        Some(Verb::Put(number))
    } else if word == b"offer".as_slice() {
        Some(Verb::Offer(number))
    } else if word == b"transfer".as_slice() {
        Some(Verb::Transfer(number))
    } else if word == b"try".as_slice() {
        Some(Verb::Try(number))
    } else if word == b"drain".as_slice() {
        Some(Verb::Drain(number))
    } else if word == b"interrupt".as_slice() {
        interrupt(number)
    } else {
        None
    }
}

/// The verb of a word and the rest of its line: nothing, or a space and a number.
#[tactic(auto, unfolding(crate::specs::Scripts::Grammar::verb_of))]
fn read_verb(word: &[u8], rest: &[u8]) -> Option<Verb>
    ensures { result ≡ verb_of word.now rest.now }
{
    match rest {
        [] => bare_verb(word),
        [_, text @ ..] => {
            let number = read_number(text)?;
            numbered_verb(word, number)
        }
    }
}

/// The verb behind a line's first word.
#[tactic(auto, unfolding(crate::specs::Scripts::Grammar::verb_behind))]
fn read_verb_behind(rest: &[u8]) -> Option<Verb>
    ensures { result ≡ verb_behind rest.now }
{
    match rest {
        [] => None,
        [_, text @ ..] => {
            let (word, rest) = split_word(text);
            read_verb(word, rest)
        }
    }
}

/// The call of a line, whatever is served.
#[tactic(auto, unfolding(crate::specs::Scripts::Grammar::call_in))]
pub(crate) fn read_any_call(line: &[u8]) -> Option<Call>
    ensures { result ≡ call_in line.now }
{
    let (word, rest) = split_word(line);
    let seat = read_seat(word)?;
    let verb = read_verb_behind(rest)?;
    Some(Call { seat, verb })
}

/// Returns the call of a line of a script about a place of this order, or None if the line is at fault.
#[tactic(auto, unfolding(crate::specs::Scripts::Grammar::call_of, crate::specs::Scripts::Grammar::served_call))]
pub fn read_call(order: Order, line: &[u8]) -> Option<Call>
    ensures read { result ≡ call_of order line.now }
    ensures fits { IfSome result (FitsCall order) }
{
    if line.len() > LONGEST_LINE {
        return None;
    }
    let call = read_any_call(line)?;
    if is_served(order, call.verb) {
        Some(call)
    } else {
        None
    }
}
