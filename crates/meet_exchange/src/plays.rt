//! The rule of the table, and what each step states.

ghost use Rattle.std.specs.Prelude.{◌≡◌, [], ◌∷◌, ◌++◌};
ghost use Rattle.meet_exchange.specs.Rule.{Kept, fresh_from, top, others};
ghost use Rattle.meet_exchange.specs.Told.{Sees, Finds, Claims, Frees, Posts, Withdraws, Takes, Gains, Collects};

use crate::views::{Plan, View};
use atomic_table::{Join, Play, Split, TableRule};
use meet_tickets::Marked;

/// The rule.
pub struct Exchanges;

impl<T: Marked> TableRule<Option<T>, View, Plan> for Exchanges {
    ghost holds = { Kept T.mark_of };

    ghost first = { λ plan. fresh_from 0 plan.seats };
}

/// A load of a slot's word.
pub struct Look;

impl<T: Marked> Play<Option<T>, View> for Look {
    ghost then = { Sees };
}

/// A load of the word of a slot where the seat's offer stands.
pub struct Find;

impl<T: Marked> Play<Option<T>, View> for Find {
    ghost then = { Finds };
}

/// The step that claims a free slot.
pub struct Claim;

impl<T: Marked> Play<Option<T>, View> for Claim {
    ghost then = { Claims };
}

/// The step that posts an item in a claimed slot.
pub struct Post;

impl<T: Marked> Play<Option<T>, View> for Post {
    ghost then = { Posts T.mark_of };
}

/// The step that takes a posted item back.
pub struct Withdraw;

impl<T: Marked> Play<Option<T>, View> for Withdraw {
    ghost then = { Withdraws T.mark_of };
}

/// The step that clears a slot.
pub struct Clear;

impl<T: Marked> Play<Option<T>, View> for Clear {
    ghost then = { Frees };
}

/// The step that takes a posted item.
pub struct Take;

impl<T: Marked> Play<Option<T>, View> for Take {
    ghost then = { Takes T.mark_of };
}

/// The step that answers a taken item by another.
pub struct Answer;

impl<T: Marked> Play<Option<T>, View> for Answer {
    ghost then = { Frees };
}

/// The step that collects an answer which was seen.
pub struct Gain;

impl<T: Marked> Play<Option<T>, View> for Gain {
    ghost then = { Gains T.mark_of };
}

/// The step that collects an answer, if there is one.
pub struct Collect;

impl<T: Marked> Play<Option<T>, View> for Collect {
    ghost then = { Collects T.mark_of };
}

/// Splits the first seat's trail off.
pub struct Cut;

impl Split<View> for Cut {
    ghost left = { others };

    ghost right = { λ v. top v ∷ [] };
}

/// Joins a seat's trail.
pub struct Glue;

impl Join<View> for Glue {
    ghost both = { λ v w. v ++ w };

    ghost spent = { [] };
}

/// A token with no trail.
pub struct Enter;

impl<T> Play<Option<T>, View> for Enter {
    ghost then = { λ st m found n. n ≡ ([], []) };
}
