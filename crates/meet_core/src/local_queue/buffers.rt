//! What a queue of one thread buffers: nothing, items up to a bound, or any number of them.

ghost use Rattle.std.specs.Prelude.{◌≡◌, ⊤, None, refl, true, false};
ghost use Rattle.meet_tickets.specs.Meeting.{keeps};
ghost use Rattle.meet_core.specs.Bounded.{none-fewer, transfer-buffers};
ghost use Rattle.meet_core.specs.QueueSteps.{kind_of, bounded_kind};
ghost use Rattle.meet_core.specs.Synchronous.{synchronous-end, synchronous-never};

use meet_line::{Line, TransferLine};
use meet_tickets::Marked;

/// What a queue over this wait queue buffers, as a type: a queue is compiled for each of them.
pub trait Buffers<T: Marked, L: Line<T>> {
    ghost use Rattle.std.specs.Prelude.{◌≡◌, ◌≤◌, ℕ, Option, true};
    ghost use Rattle.meet_tickets.specs.declared.places.Kind.{Kind};
    ghost use Rattle.meet_tickets.specs.Meeting.{end_of, keeps};
    ghost use Rattle.meet_core.specs.Bounded.{IsBuffering};

    /// The kind of a queue with this bound.
    ghost kind: { Option ℕ → Kind };

    /// Whether this number of items may be buffered.
    ghost allows: { ℕ → Type 0 };

    /// Returns whether a queue with this bound buffers items.
    fn keeps_items(bound: Option<u64>) -> bool
        ensures { result ≡ keeps (kind bound).order };

    /// Returns the most items that it buffers, or None if there is no bound.
    fn most(bound: Option<u64>) -> Option<u64>
        ensures { result ≡ (kind bound).bound };

    /// Its wait queue is met at the same end as its kind.
    ghost met_at: { (bound : Option ℕ) → end_of (kind bound).order ≡ L.end };

    /// If items are buffered, their nodes may come to the wait queue.
    ghost buffers: { (bound : Option ℕ) → keeps (kind bound).order ≡ true → IsBuffering L.fits };

    /// If items are buffered, any number of them may be.
    ghost allows_any: { (bound : Option ℕ) → keeps (kind bound).order ≡ true → (kept : ℕ) → allows kept };

    /// A queue may buffer no item.
    ghost allows_none: { allows 0 };

    /// If a number of items may be buffered, so may fewer.
    ghost allows_fewer: { (kept fewer : ℕ) → fewer ≤ kept → allows kept → allows fewer };
}

/// A queue that is of one kind, whatever its bound.
pub trait OneKind<T: Marked, L: Line<T>>: Buffers<T, L> {
    ghost use Rattle.std.specs.Prelude.{◌≡◌, ℕ, Option, None};

    /// The kind is the same with each bound.
    ghost one_kind: { (bound : Option ℕ) → Self.kind bound ≡ Self.kind None };
}

/// The queue buffers nothing: a put waits.
pub struct Nothing {}

/// It buffers as many items as its bound says, or any number where there is none.
pub struct UpTo {}

/// It buffers any number of items.
pub struct AnyNumber {}

impl<T: Marked, L: Line<T>> Buffers<T, L> for Nothing {
    ghost kind = { λ bound. kind_of L.end };

    ghost allows = { λ kept. kept ≡ 0 };

    ghost met_at = { λ bound. synchronous-end L.end };

    ghost buffers = { λ bound keeps. absurd (synchronous-never L.end keeps) };

    ghost allows_any = { λ bound keeps kept. absurd (synchronous-never L.end keeps) };

    ghost allows_none = { refl };

    ghost allows_fewer = { λ kept fewer few none. none-fewer kept fewer few none };

    fn keeps_items(_bound: Option<u64>) -> bool
        ensures { result ≡ keeps (kind_of L.end).order }
    {
        false
    }

    fn most(_bound: Option<u64>) -> Option<u64>
        ensures { result ≡ (kind_of L.end).bound }
    {
        None
    }
}

impl<T: Marked, L: Line<T>> OneKind<T, L> for Nothing {
    ghost one_kind = { λ bound. refl };
}

impl<T: Marked> Buffers<T, TransferLine<T>> for UpTo {
    ghost kind = { λ bound. bounded_kind bound };

    ghost allows = { λ kept. ⊤ };

    ghost met_at = { λ bound. refl };

    ghost buffers = { λ bound keeps. transfer-buffers };

    ghost allows_any = { λ bound keeps kept. tt };

    ghost allows_none = { tt };

    ghost allows_fewer = { λ kept fewer few any. tt };

    fn keeps_items(_bound: Option<u64>) -> bool {
        true
    }

    fn most(bound: Option<u64>) -> Option<u64> {
        bound
    }
}

impl<T: Marked> Buffers<T, TransferLine<T>> for AnyNumber {
    ghost kind = { λ bound. bounded_kind None };

    ghost allows = { λ kept. ⊤ };

    ghost met_at = { λ bound. refl };

    ghost buffers = { λ bound keeps. transfer-buffers };

    ghost allows_any = { λ bound keeps kept. tt };

    ghost allows_none = { tt };

    ghost allows_fewer = { λ kept fewer few any. tt };

    fn keeps_items(_bound: Option<u64>) -> bool {
        true
    }

    fn most(_bound: Option<u64>) -> Option<u64> {
        None
    }
}

impl<T: Marked> OneKind<T, TransferLine<T>> for AnyNumber {
    ghost one_kind = { λ bound. refl };
}
