//! A law: that times and order state the same. It is the contract of a function that does nothing.

ghost use Rattle.std.specs.Prelude.{◌≡◌, List};
ghost use Rattle.meet_tickets.specs.declared.places.Kind.{Kind};
ghost use Rattle.meet_overlap.specs.declared.calls.Call.{Call};
ghost use Rattle.meet_overlap.specs.Explaining.{Event, IsExplained, records_of};
ghost use Rattle.meet_overlap.specs.Ordered.{IsOrderlyExplained};

/// States that events that explain calls at their times stand in an order that real time allows, and that events in
/// such an order have times. It does nothing.
pub fn times_are_order()
    ensures order { (k : Kind) (calls : List Call) (events : List Event) → IsExplained k calls events
        → IsOrderlyExplained k calls events }
    ensures times { (k : Kind) (calls : List Call) (events : List Event) → IsOrderlyExplained k calls events
        → (at_times : List Event) × IsExplained k calls at_times × (records_of at_times ≡ records_of events) }
{}
