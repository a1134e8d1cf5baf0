//! Calls of a handle that returned an error.

ghost use Rattle.std.specs.Prelude.{◌≡◌};

use meet_sync::{Ledgers, Seat, SeatRefused};
use meet_tickets::{Deed, Refusal};
use std::fmt;
use std::fmt::{Debug, Display, Formatter, Write};

/// The error of a handle's call: the item is returned. Nothing was logged, but for the interrupts that `interrupt_all`
/// had made before. Its text is the name of the reason. It is no error type, and no `From` makes it a `Refusal`, since
/// that would drop the item: a `?` returns it whole or doesn't compile.
#[derive(Drop)]
pub struct CallRefused<T> {
    /// The reason.
    pub why: Refusal,
    /// The item that the call brought.
    pub item: Option<T>,
}

impl<T: Drop> CallRefused<T> {
    /// Returns the reason alone, and drops the item: match the error to keep it.
    pub fn into_why(self) -> Refusal
        ensures { result ≡ self.why }
    {
        self.why
    }
}

/// The name of the reason.
impl<T> Display for CallRefused<T> {
    ghost use Rattle.std.specs.Prelude.{Some};
    ghost use Rattle.meet_tickets.specs.Refusals.{name_of};

    ghost output = { λ refused. Some (name_of refused.why) };

    fn fmt<W: Write>(&self, f: &mut Formatter<W>) -> fmt::Result {
        f.write_str(self.why.name())
    }
}

/// The reason alone: the item need not be one that can be shown.
impl<T> Debug for CallRefused<T> {
    fn fmt<W: Write>(&self, f: &mut Formatter<W>) -> fmt::Result {
        write!(f, "CallRefused({})", self.why)
    }
}

/// Splits a call's error into its seat and what its caller gets.
pub(crate) fn refused_apart<T, N: Ledgers>(
    refused: SeatRefused<T, N>,
) -> (Seat<Deed, N>, CallRefused<T>)
    ensures seat { result.0 ≡ refused.seat }
    ensures why { result.1.why ≡ refused.why }
    ensures item { result.1.item ≡ refused.item }
{
    let SeatRefused { why, seat, item } = refused;
    (seat, CallRefused { why, item })
}
