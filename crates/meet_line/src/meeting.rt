//! How a request meets the wait queue.

ghost use Rattle.std.specs.Prelude.{◌≡◌, ◌+◌, ◌<◌, ◌↔◌, IsTrue, false, is_some, None, AllPairs, length};
ghost use Rattle.std.specs.Prelude.{option_to_list, if◌then◌else◌};
ghost use Rattle.meet_tickets.specs.Meeting.{met, partner, count_on};
ghost use Rattle.meet_tickets.specs.BySeat.{unmet};
ghost use Rattle.meet_tickets.specs.declared.places.Side.TheVariants.{Giver};

use crate::line::Line;
use meet_tickets::{Entry, Side};

/// Returns true if a request of this side finds no counterpart in a wait queue of one side, in which `givers` producers
/// stand: its own side stands there, or no side does.
#[inline(always)]
pub fn is_alone<T, L: Line<T>>(line: &L, givers: u64, side: Side) -> bool
    requires givers { givers ≡ count_on Giver (L.entries line.now) }
    requires side { AllPairs (λ e f. is_some e.item ≡ is_some f.item) (L.entries line.now) }
    ensures alone { IsTrue result ↔ (partner L.end (L.entries line.now) side ≡ None) }
    ensures finds { result ≡ false → partner L.end (L.entries line.now) side ≡ met L.end (L.entries line.now) }
{
    match side {
        Side::Giver => line.len() == givers,
        Side::Taker => givers == 0,
    }
}

/// Removes the counterpart of a request of this side from a wait queue of one side, in which `givers` producers stand.
#[inline(always)]
pub fn meet<T, L: Line<T>>(line: &mut L, givers: u64, side: Side) -> Option<Entry<T>>
    requires givers { givers ≡ count_on Giver (L.entries line.old) }
    requires side { AllPairs (λ e f. is_some e.item ≡ is_some f.item) (L.entries line.old) }
    ensures partner { result ≡ partner L.end (L.entries line.old) side }
    ensures rest { L.entries line.new ≡ (if is_some result then unmet L.end (L.entries line.old)
        else L.entries line.old) }
    ensures room { L.spare line.new ≡ L.spare line.old + length (option_to_list result) }
    ensures width { L.width line.new ≡ L.width line.old }
{
    if is_alone(line, givers, side) {
        return None;
    }
    line.meet()
}
