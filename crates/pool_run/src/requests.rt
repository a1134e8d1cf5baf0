//! The grammar of a pool's script after its first line: each line is a call.

ghost use Rattle.std.specs.Prelude.{◌≡◌, IfSome};
ghost use Rattle.pool_run.specs.Requests.{bare_verb_of, numbered_verb_of, verb_of, verb_behind, request_in, request_of};
ghost use Rattle.pool_run.specs.Spelling.{FitsRequest};

use meet_run::text::grammar::read_seat;
use meet_run::text::reading::LONGEST_LINE;
use meet_run::text::words::{read_number, split_word};
use pool_history::{PoolRequest, PoolVerb};

/// The verb of a word that stands alone.
#[tactic(auto, unfolding(crate::specs::Requests::bare_verb_of))]
fn bare_verb(word: &[u8]) -> Option<PoolVerb>
    ensures { result ≡ bare_verb_of word.now }
{
    if word == b"ready".as_slice() {
        Some(PoolVerb::Ready)
    } else if word == b"follow".as_slice() {
        Some(PoolVerb::Follow)
    } else if word == b"idle".as_slice() {
        Some(PoolVerb::Idle)
    } else if word == b"leave".as_slice() {
        Some(PoolVerb::Leave)
    } else if word == b"failed".as_slice() {
        Some(PoolVerb::Failed)
    } else if word == b"shutdown".as_slice() {
        Some(PoolVerb::ShutDown)
    } else if word == b"now".as_slice() {
        Some(PoolVerb::Now)
    } else if word == b"counters".as_slice() {
        Some(PoolVerb::Counters)
    } else if word == b"checkpoint".as_slice() {
        Some(PoolVerb::Checkpoint)
    } else {
        None
    }
}

/// The verb of a word with a number after it.
#[tactic(auto, unfolding(crate::specs::Requests::numbered_verb_of))]
fn numbered_verb(word: &[u8], number: u64) -> Option<PoolVerb>
    ensures { result ≡ numbered_verb_of word.now number }
{
    if word == b"execute".as_slice() {
        Some(PoolVerb::Execute(number))
    } else if word == b"finish".as_slice() {
        Some(PoolVerb::Finish(number))
    } else {
        None
    }
}

/// The verb of a word and the rest of its line: nothing, or a space and a number.
#[tactic(auto, unfolding(crate::specs::Requests::verb_of))]
fn read_verb(word: &[u8], rest: &[u8]) -> Option<PoolVerb>
    ensures { result ≡ verb_of word.now rest.now }
{
    match rest {
        [] => bare_verb(word),
        [_, text @ ..] => {
            let number = read_number(text)?;
            numbered_verb(word, number)
        }
    }
}

/// The verb after a line's first word.
#[tactic(auto, unfolding(crate::specs::Requests::verb_behind))]
fn read_verb_behind(rest: &[u8]) -> Option<PoolVerb>
    ensures { result ≡ verb_behind rest.now }
{
    match rest {
        [] => None,
        [_, text @ ..] => {
            let (word, rest) = split_word(text);
            read_verb(word, rest)
        }
    }
}

/// The call of a line, however long.
#[tactic(auto, unfolding(crate::specs::Requests::request_in))]
fn read_long_request(line: &[u8]) -> Option<PoolRequest>
    ensures { result ≡ request_in line.now }
{
    let (word, rest) = split_word(line);
    let seat = read_seat(word)?;
    let verb = read_verb_behind(rest)?;
    Some(PoolRequest { seat, verb })
}

/// Returns the call of a line of a pool's script, or None if the line is at fault.
#[tactic(auto, unfolding(crate::specs::Requests::request_of))]
pub fn read_request(line: &[u8]) -> Option<PoolRequest>
    ensures read { result ≡ request_of line.now }
    ensures fits { IfSome result FitsRequest }
{
    if line.len() > LONGEST_LINE {
        return None;
    }
    read_long_request(line)
}
