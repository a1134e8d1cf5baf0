//! Laws: each is the contract of a function that does nothing.

ghost use Rattle.std.specs.Prelude.{◌≡◌, ◌<◌, ◌≤◌, ℕ, List, Some, slice_get};
ghost use Rattle.meet_tickets.specs.declared.places.Kind.{Kind};
ghost use Rattle.meet_tickets.specs.declared.records.Record.{Record};
ghost use Rattle.meet_tickets.specs.declared.records.Deed.{Deed};
ghost use Rattle.meet_tickets.specs.Bases.{Based};
ghost use Rattle.meet_core.specs.declared.left.Left.{Left};
ghost use Rattle.meet_book.specs.Listed.{StandsBefore, StandsIn, list_of};
ghost use Rattle.meet_book.specs.Received.{Received};
ghost use Rattle.meet_laws.specs.Promise.{KeepsPromise};
ghost use Rattle.meet_sync.specs.Chronicles.{IsChronicle};

/// States that a closed queue kept its promise, however the threads' calls interleaved. In its one history each ticket
/// was matched at most once, in the queue's order, and never after it was withdrawn. It does nothing.
pub fn closed_queues_keep_their_promise<T>()
    ensures { (mark : T → ℕ) (kind : Kind) (base : Based) (records : List (Record Deed))
        (lists : List (List (Received Deed))) (items : List (Left T))
        → IsChronicle mark kind base records lists items → KeepsPromise kind base records }
{}

/// States that a receipt's number is its record's place in the log. If a record of a closed queue wasn't compacted, it
/// stands in the history at the number that its receipt has. It does nothing.
pub fn receipts_of_closed_queues_tell_places<T>()
    ensures { (mark : T → ℕ) (kind : Kind) (base : Based) (records : List (Record Deed))
        (lists : List (List (Received Deed))) (items : List (Left T))
        → IsChronicle mark kind base records lists items → (seat k : ℕ) (receipt : Received Deed)
        → slice_get (list_of lists seat) k ≡ Some receipt → base.gone < receipt.place
        → StandsIn base.gone records receipt }
{}

/// States that a closed queue kept the order that its threads could observe. A record whose number is at most some
/// moment stands in the history before each record whose number is above that moment. What a seat called before it gave
/// a moment away has numbers up to that; what a seat calls after it was shown a moment has numbers above that. It does
/// nothing.
pub fn closed_queues_keep_order<T>()
    ensures { (mark : T → ℕ) (kind : Kind) (base : Based) (records : List (Record Deed))
        (lists : List (List (Received Deed))) (items : List (Left T))
        → IsChronicle mark kind base records lists items → (one other : Received Deed) (a b j k moment : ℕ)
        → slice_get (list_of lists a) j ≡ Some one → slice_get (list_of lists b) k ≡ Some other
        → base.gone < one.place → one.place ≤ moment → moment < other.place → StandsBefore records one other }
{}
