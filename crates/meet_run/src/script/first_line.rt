//! The first line of a script.

ghost use Rattle.std.specs.Prelude.{◌≡◌, IfSome};
ghost use Rattle.std.specs.Option.{option_map};
ghost use Rattle.meet_history.specs.Limits.{IsInLimits};
ghost use Rattle.meet_run.specs.Scripts.Grammar.{written_in, setup_at_end, setup_in, setup_of};

use crate::text::grammar::{may_have_bound, read_option, read_order};
use crate::text::reading::LONGEST_LINE;
use crate::text::words::split_word;
use meet_history::Setup;
use meet_tickets::{Kind, LAST_TICKET, MOST_KEPT, MOST_RECORDS, MOST_SEATS, Order};

/// The options that a first line spells out.
#[derive(Clone, Copy, PartialEq, Eq, Debug)]
pub struct Options {
    /// The number of seats.
    pub seats: Option<u64>,
    /// The capacity of the log, in records.
    pub cap: Option<u64>,
    /// The first ticket.
    pub first: Option<u64>,
    /// The most items that are buffered.
    pub bound: Option<u64>,
}

/// The options of a first line, each at most once and in this order, and the rest of the line.
#[tactic(auto, unfolding(crate::specs::Scripts::Grammar::written_in))]
fn read_options(rest: &[u8]) -> Option<(Options, &[u8])>
    ensures { option_map (λ found. (found.0, found.1.now)) result ≡ written_in rest.now }
{
    let (seats, rest) = read_option(b" seats ", MOST_SEATS, rest)?;
    let (cap, rest) = read_option(b" cap ", MOST_RECORDS, rest)?;
    let (first, rest) = read_option(b" first ", LAST_TICKET, rest)?;
    let (bound, rest) = read_option(b" bound ", MOST_KEPT, rest)?;
    let options = Options {
        seats,
        cap,
        first,
        bound,
    };
    Some((options, rest))
}

/// The place, where nothing is left of the line, and it may have that bound.
#[tactic(auto, unfolding(crate::specs::Scripts::Grammar::setup_at_end))]
fn finish_setup(order: Order, options: Options, rest: &[u8]) -> Option<Setup>
    ensures { result ≡ setup_at_end order options rest.now }
{
    if !rest.is_empty() || !may_have_bound(order, options.bound) {
        return None;
    }
    Some(Setup {
        kind: Kind {
            order,
            bound: options.bound,
        },
        seats: options.seats.unwrap_or(64),
        cap: options.cap.unwrap_or(MOST_RECORDS),
        first: options.first.unwrap_or(1),
    })
}

/// The place of a first line, however long.
#[tactic(auto, unfolding(crate::specs::Scripts::Grammar::setup_in))]
fn read_long_setup(line: &[u8]) -> Option<Setup>
    ensures { result ≡ setup_in line.now }
{
    let (word, rest) = split_word(line);
    let order = read_order(word)?;
    let (options, rest) = read_options(rest)?;
    finish_setup(order, options, rest)
}

/// Returns the place of a script's first line, or None if the line is at fault.
#[tactic(auto, unfolding(crate::specs::Scripts::Grammar::setup_of))]
pub fn read_setup(line: &[u8]) -> Option<Setup>
    ensures read { result ≡ setup_of line.now }
    ensures fits { IfSome result IsInLimits }
{
    if line.len() > LONGEST_LINE {
        return None;
    }
    read_long_setup(line)
}
