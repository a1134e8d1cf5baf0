//! The grammar of a first line: a script's names a pool's settings, and so does a trace's, after its format.

ghost use Rattle.std.specs.Prelude.{◌≡◌, IfSome};
ghost use Rattle.std.specs.Option.{option_map};
ghost use Rattle.pool_run.specs.FirstLines.{number_behind, timeout_in, sizes_in, bounded_in, queue_in, policy_of};
ghost use Rattle.pool_run.specs.FirstLines.{policy_in, settings_in, settings_of, makeable, pool_head_in, pool_head_of};
ghost use Rattle.pool_run.specs.Spelling.{FitsSettings, FitsPoolHead};

use meet_run::text::reading::LONGEST_LINE;
use meet_run::text::words::{behind_prefix, read_number, split_word};
use meet_tickets::Order;
use pool_core::{Policy, PoolQueue, Settings, Sizes};

/// A number after its name, and the rest of the line.
#[tactic(auto, unfolding(crate::specs::FirstLines::number_behind))]
fn read_number_behind<'a>(name: &[u8], rest: &'a [u8]) -> Option<(u64, &'a [u8])>
    ensures { option_map (λ found. (found.0, found.1.now)) result ≡ number_behind name.now rest.now }
{
    let text = behind_prefix(name, rest)?;
    let (word, rest) = split_word(text);
    let number = read_number(word)?;
    Some((number, rest))
}

/// Whether core workers' waits end too, and the rest of the line.
#[tactic(auto, unfolding(crate::specs::FirstLines::timeout_in))]
fn read_timeout(rest: &[u8]) -> (bool, &[u8])
    ensures { (result.0, result.1.now) ≡ timeout_in rest.now }
{
    match behind_prefix(b" timeout", rest) {
        None => (false, rest),
        Some(text) => (true, text),
    }
}

/// The sizes at the front of a line, and the rest of it.
#[tactic(auto, unfolding(crate::specs::FirstLines::sizes_in))]
fn read_sizes(line: &[u8]) -> Option<(Sizes, &[u8])>
    ensures { option_map (λ found. (found.0, found.1.now)) result ≡ sizes_in line.now }
{
    let (core, rest) = read_number_behind(b"pool core ", line)?;
    let (maximum, rest) = read_number_behind(b" maximum ", rest)?;
    let (callers, rest) = read_number_behind(b" callers ", rest)?;
    let (keep_alive, rest) = read_number_behind(b" keep ", rest)?;
    let (core_timeout, rest) = read_timeout(rest);
    let sizes = Sizes {
        core,
        maximum,
        callers,
        keep_alive,
        core_timeout,
    };
    Some((sizes, rest))
}

/// A queue with a bound, and the rest of the line.
#[tactic(auto, unfolding(crate::specs::FirstLines::bounded_in))]
fn read_bounded(rest: &[u8]) -> Option<(PoolQueue, &[u8])>
    ensures { option_map (λ found. (found.0, found.1.now)) result ≡ bounded_in rest.now }
{
    let (most, rest) = read_number_behind(b" bounded ", rest)?;
    Some((PoolQueue::Bounded(most), rest))
}

/// A queue by its words, each with a space in front, and the rest of the line.
#[tactic(auto, unfolding(crate::specs::FirstLines::queue_in))]
fn read_queue(rest: &[u8]) -> Option<(PoolQueue, &[u8])>
    ensures { option_map (λ found. (found.0, found.1.now)) result ≡ queue_in rest.now }
{
    if let Some(text) = behind_prefix(b" hand fair", rest) {
        return Some((PoolQueue::Hand(Order::Fair), text));
    }
    if let Some(text) = behind_prefix(b" hand unfair", rest) {
        return Some((PoolQueue::Hand(Order::Unfair), text));
    }
    if let Some(text) = behind_prefix(b" unbounded", rest) {
        return Some((PoolQueue::Unbounded, text));
    }
    read_bounded(rest)
}

/// A policy by its word.
#[tactic(auto, unfolding(crate::specs::FirstLines::policy_of))]
fn read_policy_word(word: &[u8]) -> Option<Policy>
    ensures { result ≡ policy_of word.now }
{
    if word == b"abort".as_slice() {
        Some(Policy::Abort)
    } else if word == b"caller-runs".as_slice() {
        Some(Policy::CallerRuns)
    } else if word == b"discard".as_slice() {
        Some(Policy::Discard)
    } else if word == b"discard-oldest".as_slice() {
        Some(Policy::DiscardOldest)
    } else {
        None
    }
}

/// The policy at the end of a line.
#[tactic(auto, unfolding(crate::specs::FirstLines::policy_in))]
fn read_policy(rest: &[u8]) -> Option<Policy>
    ensures { result ≡ policy_in rest.now }
{
    let word = behind_prefix(b" policy ", rest)?;
    read_policy_word(word)
}

/// What the pool of a line is made with, however long the line.
#[tactic(auto, unfolding(crate::specs::FirstLines::settings_in))]
fn read_long_settings(line: &[u8]) -> Option<Settings>
    ensures { result ≡ settings_in line.now }
{
    let (sizes, rest) = read_sizes(line)?;
    let (queue, rest) = read_queue(rest)?;
    let policy = read_policy(rest)?;
    Some(Settings {
        sizes,
        queue,
        policy,
    })
}

/// Returns the settings of a script's first line, whether or not such a pool can be made; or None if the line is at
/// fault.
#[tactic(auto, unfolding(crate::specs::FirstLines::settings_of))]
pub fn read_settings(line: &[u8]) -> Option<Settings>
    ensures read { result ≡ settings_of line.now }
    ensures fits { IfSome result FitsSettings }
{
    if line.len() > LONGEST_LINE {
        return None;
    }
    read_long_settings(line)
}

/// These settings, where a pool can be made of them.
#[tactic(auto, unfolding(crate::specs::FirstLines::makeable))]
fn if_makeable(settings: Settings) -> Option<Settings>
    ensures { result ≡ makeable settings }
{
    if settings.refusal().is_none() {
        Some(settings)
    } else {
        None
    }
}

/// What the pool of a trace's first line is made with, however long the line.
#[tactic(auto, unfolding(crate::specs::FirstLines::pool_head_in))]
fn read_long_head(line: &[u8]) -> Option<Settings>
    ensures { result ≡ pool_head_in line.now }
{
    let text = behind_prefix(b"trace 1 ", line)?;
    let settings = read_long_settings(text)?;
    if_makeable(settings)
}

/// Returns the settings of a trace's first line, or None if the line is at fault, or no such pool can be made.
#[tactic(auto, unfolding(crate::specs::FirstLines::pool_head_of))]
pub fn read_head(line: &[u8]) -> Option<Settings>
    ensures read { result ≡ pool_head_of line.now }
    ensures fits { IfSome result FitsPoolHead }
{
    if line.len() > LONGEST_LINE {
        return None;
    }
    read_long_head(line)
}
