//! Laws: each is the contract of a function that does nothing.

ghost use Rattle.std.specs.Prelude.{◌≡◌, ◌<◌, ◌≤◌, ℕ, List, Some, slice_get};
ghost use Rattle.meet_tickets.specs.declared.records.Record.{Record};
ghost use Rattle.meet_book.specs.Listed.{AreListed, StandsBefore, StandsIn, list_of};
ghost use Rattle.meet_book.specs.Received.{Received};
ghost use Rattle.pool_core.specs.declared.deeds.PoolDeed.{PoolDeed};

/// States that a receipt's number is its record's place in the log. If a record of a closed pool wasn't compacted, it
/// stands in the history at the number that its receipt has. It does nothing.
pub fn receipts_of_closed_pools_tell_places()
    ensures { (gone : ℕ) (records : List (Record (PoolDeed ℕ))) (lists : List (List (Received (PoolDeed ℕ))))
        → AreListed gone records lists → (seat k : ℕ) (receipt : Received (PoolDeed ℕ))
        → slice_get (list_of lists seat) k ≡ Some receipt → gone < receipt.place → StandsIn gone records receipt }
{}

/// States that a closed pool kept the order that its threads could observe. A record whose number is at most some
/// moment stands in the history before each record whose number is above that moment. What a seat called before it gave
/// a moment away has numbers up to that; what a seat calls after it was shown a moment has numbers above that. It does
/// nothing.
pub fn closed_pools_keep_order()
    ensures { (gone : ℕ) (records : List (Record (PoolDeed ℕ))) (lists : List (List (Received (PoolDeed ℕ))))
        → AreListed gone records lists → (one other : Received (PoolDeed ℕ)) (a b j k moment : ℕ)
        → slice_get (list_of lists a) j ≡ Some one → slice_get (list_of lists b) k ≡ Some other
        → gone < one.place → one.place ≤ moment → moment < other.place → StandsBefore records one other }
{}
