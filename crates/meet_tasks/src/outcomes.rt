//! What a call returns: why nothing was received, or why an item wasn't sent.

ghost use Rattle.std.specs.Prelude.{◌≡◌, ℕ, Some, None, Err, IsSome, IsOkAnd, IsErrAnd, IfOk, IfErr};
ghost use Rattle.meet_sync.specs.declared.asked.End.TheVariants.{Got};
ghost use Rattle.meet_tasks.specs.Outcomes.{IsGivers, IsTakers, IsSent, Tells};

use crate::refused::CallRefused;
use meet_line::let_go_none;
use meet_sync::End;
use meet_tickets::Refusal;
use std::error::Error;
use std::fmt;
use std::fmt::{Display, Formatter, Write};

/// Why a call received no item, or sent none. As an error its text is its name.
#[derive(Clone, Copy, PartialEq, Eq, Debug)]
pub enum NotReceived {
    /// No counterpart was there, and the call doesn't wait.
    Nobody,
    /// It waited, and its time ran out.
    TimedOut,
    /// It was interrupted.
    Interrupted,
    /// It was refused for this reason, and nothing was logged. Differs can't be: then the queue's log would be illegal.
    Refused(Refusal),
}

impl NotReceived {
    /// Returns its name.
    pub fn name(&self) -> &'static str {
        match self {
            NotReceived::Nobody => "Nobody",
            NotReceived::TimedOut => "TimedOut",
            NotReceived::Interrupted => "Interrupted",
            NotReceived::Refused(why) => why.name(),
        }
    }
}

/// Its name.
impl Display for NotReceived {
    fn fmt<W: Write>(&self, f: &mut Formatter<W>) -> fmt::Result {
        f.write_str(self.name())
    }
}

impl Error for NotReceived {}

/// An item that wasn't sent, and why. It is no error type: so a `?` returns it whole or doesn't compile, and no item is
/// dropped in silence.
#[derive(Clone, PartialEq, Eq, Debug, Drop)]
pub struct Unsent<T> {
    /// The reason.
    pub why: NotReceived,
    /// The item.
    pub item: T,
}

impl<T: Drop> Unsent<T> {
    /// Returns the reason alone, and drops the item: match the error to keep it.
    pub fn into_why(self) -> NotReceived
        ensures { result ≡ self.why }
    {
        self.why
    }
}

/// The name of the reason.
impl<T> Display for Unsent<T> {
    fn fmt<W: Write>(&self, f: &mut Formatter<W>) -> fmt::Result {
        f.write_str(self.why.name())
    }
}

/// Why an item wasn't sent, and the item.
fn back_for<T>(why: NotReceived, back: Option<T>) -> Result<(), Unsent<T>>
    requires { IsSome back }
    ensures { IsErrAnd result (λ unsent. (unsent.why ≡ why) × (back ≡ Some unsent.item)) }
{
    match back {
        Some(item) => Err(Unsent { why, item }),
        None => unreachable!(),
    }
}

/// The result of a producer's call.
pub(crate) fn sent<T>(asked: Result<End<T>, CallRefused<T>>) -> Result<(), Unsent<T>>
    requires fits { IfOk asked IsGivers }
    requires back { IfErr asked (λ refused. IsSome refused.item) }
    ensures sent { IfOk result (λ _. IsOkAnd asked IsSent) }
    ensures unsent { IfErr result (λ unsent. Tells asked unsent.why (Some unsent.item)) }
{
    match asked {
        Ok(End::Gave(_)) | Ok(End::Kept) | Ok(End::Done) => Ok(()),
        Ok(End::Failed(back)) => back_for(NotReceived::Nobody, back),
        Ok(End::TimedOut(back)) => back_for(NotReceived::TimedOut, back),
        Ok(End::EntryInterrupted(back)) => back_for(NotReceived::Interrupted, back),
        Ok(End::Interrupted(back)) => back_for(NotReceived::Interrupted, back),
        Ok(End::Got(_, item)) => Err(Unsent {
            why: NotReceived::Refused(Refusal::Differs), // it can't be: no legal history has this
            item,
        }),
        Err(refused) => {
            let CallRefused { why, item } = refused;
            back_for(NotReceived::Refused(why), item)
        }
    }
}

/// Why a consumer received nothing.
fn nothing<T>(why: NotReceived, back: Option<T>) -> Result<T, NotReceived>
    requires { back ≡ None }
    ensures { result ≡ Err why }
{
    let_go_none(back);
    Err(why)
}

/// The result of a consumer's call.
pub(crate) fn received<T>(asked: Result<End<T>, CallRefused<T>>) -> Result<T, NotReceived>
    requires fits { IfOk asked IsTakers }
    requires itemless { IfErr asked (λ refused. refused.item ≡ None) }
    ensures got { IfOk result (λ item. IsOkAnd asked (λ end. (ticket : ℕ) × (end ≡ Got ticket item))) }
    ensures nothing { IfErr result (λ why. Tells asked why None) }
{
    match asked {
        Ok(End::Got(_, item)) => Ok(item),
        Ok(End::Failed(back)) => nothing(NotReceived::Nobody, back),
        Ok(End::TimedOut(back)) => nothing(NotReceived::TimedOut, back),
        Ok(End::EntryInterrupted(back)) => nothing(NotReceived::Interrupted, back),
        Ok(End::Interrupted(back)) => nothing(NotReceived::Interrupted, back),
        Ok(End::Done) => Err(NotReceived::Refused(Refusal::Differs)), // as above
        Ok(End::Gave(_)) | Ok(End::Kept) => unreachable!(),
        Err(refused) => {
            let CallRefused { why, item } = refused;
            nothing(NotReceived::Refused(why), item)
        }
    }
}
