//! The end at which a wait queue is met.

ghost use Rattle.std.specs.Prelude.{◌≡◌};
ghost use Rattle.meet_tickets.specs.declared.places.End.{End};
ghost use Rattle.meet_tickets.specs.declared.places.End.TheVariants.{Front, Back};

use meet_tickets::End;

/// The end at which a wait queue is met, as a type, so that each wait queue is compiled for its own.
pub trait MetAt {
    /// That end.
    ghost end: { End };

    /// Returns that end.
    fn end() -> End
        ensures { result ≡ end };
}

/// The first node is met: first in, first out.
pub struct First {}

impl MetAt for First {
    ghost end = { Front };

    #[inline(always)]
    fn end() -> End {
        End::Front
    }
}

/// The last node is met: last in, first out.
pub struct Last {}

impl MetAt for Last {
    ghost end = { Back };

    #[inline(always)]
    fn end() -> End {
        End::Back
    }
}
