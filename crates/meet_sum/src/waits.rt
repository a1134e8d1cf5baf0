//! How long tickets stood in the wait queue.

ghost use Rattle.std.specs.Prelude.{◌≡◌, ℕ, ◌∷◌, ◌++◌, [], List, None, Some, MatchOption};
ghost use Rattle.meet_sum.specs.declared.stories.Story.{Story};
ghost use Rattle.meet_sum.specs.Waits.{joins, stay_told, IsStay, IsLongest};

use crate::stories::{AtOnce, Story};
use meet_tickets::{SeatNo, Ticket};

/// How long a ticket stood in the wait queue.
#[derive(Clone, Copy, PartialEq, Eq, Debug)]
pub struct Wait {
    /// The ticket.
    pub ticket: Ticket,
    /// Its seat.
    pub seat: SeatNo,
    /// The time in records: from the number of its request's record to that of the record that took it out.
    pub records: u64,
}

/// Whether the ticket of a request stands in the wait queue, at first.
fn joins(how: AtOnce) -> bool
    ensures { result ≡ joins how }
{
    matches!(how, AtOnce::Waits | AtOnce::IsKept)
}

/// How long the ticket of a story stood in the wait queue, if it did.
pub(crate) fn stay(story: &Story, opened: u64, all: u64) -> Option<u64>
    ensures { result ≡ stay_told opened all story.now }
{
    match story.asked {
        None => None,
        Some(asked) => {
            if !joins(asked.how) {
                return None;
            }
            let came = story.came.unwrap_or(0).saturating_sub(opened);
            let went = story.went.unwrap_or(all).saturating_sub(opened);
            Some(went.saturating_sub(came))
        }
    }
}

/// How long the ticket of a story stood in the wait queue, with its seat, if it did.
fn wait_of(story: &Story, opened: u64, all: u64) -> Option<Wait>
    ensures { MatchOption result (stay_told opened all story.now ≡ None) (IsStay opened all story.now) }
{
    match story.asked {
        None => None,
        Some(asked) => match stay(story, opened, all) {
            None => None,
            Some(records) => Some(Wait {
                ticket: asked.ticket,
                seat: asked.seat,
                records,
            }),
        },
    }
}

/// The longer of what was found so far and one more.
fn longer(best: Option<Wait>, here: Wait) -> Wait
    ensures { (opened all : ℕ) (done : List Story) (s : Story) → IsStay opened all s here
        → IsLongest opened all done best → IsLongest opened all (done ++ s ∷ []) (Some result) }
{
    match best {
        None => here,
        Some(old) => {
            if old.records < here.records {
                here
            } else {
                old
            }
        }
    }
}

/// The longest of what was found so far and the ticket of one story more.
pub(crate) fn longest_with(best: Option<Wait>, story: &Story, opened: u64, all: u64) -> Option<Wait>
    ensures { (done : List Story) → IsLongest opened all done best
        → IsLongest opened all (done ++ story.now ∷ []) result }
{
    match wait_of(story, opened, all) {
        None => best,
        Some(here) => Some(longer(best, here)),
    }
}
