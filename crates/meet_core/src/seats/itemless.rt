//! Drops a hold that has no item, even if items can't be dropped.

ghost use Rattle.meet_core.specs.Table.{HasNoItem};

use meet_tickets::Hold;

/// Lets a hold without an item go.
#[inline(always)]
pub(crate) fn let_go_hold<T>(hold: Hold<T>)
    requires { HasNoItem hold }
{
    match hold {
        Hold::Free | Hold::Waiting(_) | Hold::Handed(_, _, _) => {}
        Hold::Served(_, _, _) | Hold::Cut(_, _) => unreachable!(),
    }
}
