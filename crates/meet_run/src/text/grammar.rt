//! What lines of scripts and traces have in common: a seat, the order of a place, an option.

ghost use Rattle.std.specs.Prelude.{◌≡◌};
ghost use Rattle.std.specs.Option.{option_map};
ghost use Rattle.meet_run.specs.Texts.Words.{word_of, rest_of};
ghost use Rattle.meet_run.specs.Texts.Grammar.{seat_of, order_of, option_value, option_in, may_have};

use crate::text::words::{behind_prefix, read_number, split_word};
use meet_tickets::{Order, SeatNo};

/// Returns the seat of a word.
#[tactic(auto, unfolding(crate::specs::Texts::Grammar::seat_of, crate::specs::Texts::Grammar::seat_in))]
pub fn read_seat(word: &[u8]) -> Option<SeatNo>
    ensures { result ≡ seat_of word.now }
{
    let number = read_number(word)?;
    SeatNo::new(number)
}

/// Returns the order of a place by its word.
#[tactic(auto, unfolding(crate::specs::Texts::Grammar::order_of))]
pub fn read_order(word: &[u8]) -> Option<Order>
    ensures { result ≡ order_of word.now }
{
    if word == b"fair".as_slice() {
        Some(Order::Fair)
    } else if word == b"unfair".as_slice() {
        Some(Order::Unfair)
    } else if word == b"transfer".as_slice() {
        Some(Order::Transfer)
    } else {
        None
    }
}

/// An option's number, from 1 to `most`, and the rest of its line.
#[tactic(auto, unfolding(crate::specs::Texts::Grammar::option_value))]
fn read_value(most: u64, text: &[u8]) -> Option<(Option<u64>, &[u8])>
    ensures { option_map (λ found. (found.0, found.1.now)) result
        ≡ option_value most (word_of text.now) (rest_of text.now) }
{
    let (word, rest) = split_word(text);
    let number = read_number(word)?;
    if 1 <= number && number <= most {
        Some((Some(number), rest))
    } else {
        None
    }
}

/// Reads an option by its name with a space on either side. Returns its number, if it stands there, and the rest of its
/// line.
#[tactic(auto, unfolding(crate::specs::Texts::Grammar::option_in))]
pub fn read_option<'a>(name: &[u8], most: u64, rest: &'a [u8]) -> Option<(Option<u64>, &'a [u8])>
    ensures { option_map (λ found. (found.0, found.1.now)) result ≡ option_in name.now most rest.now }
{
    match behind_prefix(name, rest) {
        None => Some((None, rest)),
        Some(text) => read_value(most, text),
    }
}

/// Whether a place of this order may have this bound.
pub(crate) fn may_have_bound(order: Order, bound: Option<u64>) -> bool
    ensures { result ≡ may_have order bound }
{
    bound.is_none() || order.keeps()
}
