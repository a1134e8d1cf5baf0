//! Why a call fails.

ghost use Rattle.std.specs.Prelude.{◌≡◌};
ghost use Rattle.meet_tickets.specs.Refusals.{number_of, name_of};

use std::error::Error;
use std::fmt;
use std::fmt::{Debug, Display, Formatter, Write};

/// The reasons for which a call fails. As an error its text is its name.
#[derive(Clone, Copy, PartialEq, Eq, Hash, Debug)]
pub enum Refusal {
    /// An allocation failed.
    Memory,
    /// The records that this call and the pending requests may need don't fit into the log; or more than 2^63 - 1
    /// records would be compacted.
    HistoryFull,
    /// Fewer request ids (tickets) are left than the call may need.
    TicketsSpent,
    /// The seat has a pending request (an open ticket).
    SeatOpen,
    /// The place has no such seat; or a pool's seat isn't of the kind that makes this call.
    NoSuchSeat,
    /// The ticket isn't the open one of that seat; or a pool's worker isn't in the state that the call names.
    NotOpen,
    /// A seat's receipts aren't its records.
    Differs,
    /// Not every seat was given back.
    SeatMissing,
    /// Another seat was at work on the slot.
    Contended,
    /// The slot has no round left.
    Worn,
    /// The sizes don't fit together.
    BadSizes,
    /// The policy needs a queue that buffers jobs.
    PolicyNeedsBuffer,
    /// A thread could not be started.
    NoThread,
    /// A line of a script can't be read.
    BadLine,
    /// A line of a trace can't be read.
    BadTrace,
    /// A read failed.
    ReadFault,
    /// A write failed.
    WriteFault,
    /// Records were compacted.
    HasBase,
}

impl Refusal {
    /// Returns the reason's number, 1 to 18.
    pub fn number(&self) -> u64
        ensures { result ≡ number_of self.now }
    {
        match self {
            Refusal::Memory => 1,
            Refusal::HistoryFull => 2,
            Refusal::TicketsSpent => 3,
            Refusal::SeatOpen => 4,
            Refusal::NoSuchSeat => 5,
            Refusal::NotOpen => 6,
            Refusal::Differs => 7,
            Refusal::SeatMissing => 8,
            Refusal::Contended => 9,
            Refusal::Worn => 10,
            Refusal::BadSizes => 11,
            Refusal::PolicyNeedsBuffer => 12,
            Refusal::NoThread => 13,
            Refusal::BadLine => 14,
            Refusal::BadTrace => 15,
            Refusal::ReadFault => 16,
            Refusal::WriteFault => 17,
            Refusal::HasBase => 18,
        }
    }

    /// Returns the reason's name, as programs print it.
    pub fn name(&self) -> &'static str
        ensures { result.now ≡ name_of self.now }
    {
        match self {
            Refusal::Memory => "Memory",
            Refusal::HistoryFull => "HistoryFull",
            Refusal::TicketsSpent => "TicketsSpent",
            Refusal::SeatOpen => "SeatOpen",
            Refusal::NoSuchSeat => "NoSuchSeat",
            Refusal::NotOpen => "NotOpen",
            Refusal::Differs => "Differs",
            Refusal::SeatMissing => "SeatMissing",
            Refusal::Contended => "Contended",
            Refusal::Worn => "Worn",
            Refusal::BadSizes => "BadSizes",
            Refusal::PolicyNeedsBuffer => "PolicyNeedsBuffer",
            Refusal::NoThread => "NoThread",
            Refusal::BadLine => "BadLine",
            Refusal::BadTrace => "BadTrace",
            Refusal::ReadFault => "ReadFault",
            Refusal::WriteFault => "WriteFault",
            Refusal::HasBase => "HasBase",
        }
    }
}

/// Its name.
impl Display for Refusal {
    ghost use Rattle.std.specs.Prelude.{Some};
    ghost use Rattle.meet_tickets.specs.Refusals.{name_of};

    ghost output = { λ why. Some (name_of why) };

    fn fmt<W: Write>(&self, f: &mut Formatter<W>) -> fmt::Result {
        f.write_str(self.name())
    }
}

impl Error for Refusal {}

/// An error, with what was handed in. It is no error type, and no `From` makes it a `Refusal`: so a `?` returns it
/// whole or doesn't compile, and nothing that was handed in is dropped in silence.
#[derive(Drop)]
pub struct Refused<I> {
    /// The reason.
    pub why: Refusal,
    /// What was handed in.
    pub back: I,
}

/// The name of the reason.
impl<I> Display for Refused<I> {
    ghost use Rattle.std.specs.Prelude.{Some};
    ghost use Rattle.meet_tickets.specs.Refusals.{name_of};

    ghost output = { λ refused. Some (name_of refused.why) };

    fn fmt<W: Write>(&self, f: &mut Formatter<W>) -> fmt::Result {
        f.write_str(self.why.name())
    }
}

/// The reason alone: what is returned need not be one that can be shown.
impl<I> Debug for Refused<I> {
    fn fmt<W: Write>(&self, f: &mut Formatter<W>) -> fmt::Result {
        write!(f, "Refused({})", self.why)
    }
}

impl<I: Drop> Refused<I> {
    /// Returns the reason alone, and drops what was handed in: match the error to keep it.
    pub fn into_why(self) -> Refusal
        ensures { result ≡ self.why }
    {
        self.why
    }
}
