//! Laws: each is the contract of a function that does nothing.

ghost use Rattle.meet_core.specs.Handed.{HandsOutWhatWasBrought};

use meet_tickets::Marked;

/// States that an item that a queue returns, to a consumer or back to its producer, has the mark that its producer's
/// request brought, whatever base and records led to the queue. It does nothing.
pub fn handed_items_were_brought<T: Marked>()
    ensures { HandsOutWhatWasBrought T.mark_of }
{}
