//! Whether a deed fits a call, and how far it is then.

ghost use Rattle.std.specs.Prelude.{◌≡◌, ◌↔◌, ◌≤◌, None, IsTrue, IsFalse, IfSome};
ghost use Rattle.meet_tickets.specs.BySeat.{is_request};
ghost use Rattle.meet_tickets.specs.declared.records.Deed.TheVariants.{Withdrawn};
ghost use Rattle.meet_overlap.specs.Calls.{told_by, Tells, IsWithin, MayStop, stage_after};
ghost use Rattle.meet_overlap.specs.Places.{stage_at};
ghost use Rattle.meet_overlap.specs.Search.{MayAllStop};

use crate::calls::{Answer, Call, Stage};
use crate::stages::{Window, stage};
use meet_tickets::{Cause, Deed, Record};

/// Why a ticket was withdrawn, as its caller is told.
fn told_cause(cause: Cause) -> Option<Answer>
    ensures { result ≡ told_by (Withdrawn cause) }
{
    match cause {
        Cause::Cancelled => None,
        Cause::Expired => Some(Answer::Expired),
        Cause::Interrupted => Some(Answer::Interrupted),
    }
}

/// What a deed tells its caller.
fn told(deed: &Deed) -> Option<Answer>
    ensures { result ≡ told_by deed.now }
{
    match deed {
        Deed::GiveWaits(_) => None,
        Deed::GiveMeets(_, _) => Some(Answer::Went),
        Deed::GiveFails(_) => Some(Answer::Nothing),
        Deed::GiveKept(_) => Some(Answer::Went),
        Deed::TakeWaits => None,
        Deed::TakeMeets(mark, _) => Some(Answer::Got(*mark)),
        Deed::TakeFails => Some(Answer::Nothing),
        Deed::EntryInterrupted(_) => Some(Answer::Interrupted),
        Deed::Done => Some(Answer::Went),
        Deed::Got(mark, _) => Some(Answer::Got(*mark)),
        Deed::Withdrawn(cause) => told_cause(*cause),
        Deed::Interrupt(_) => Some(Answer::Made),
    }
}

/// Whether the call goes on behind a deed.
fn goes_on(deed: &Deed) -> bool
    ensures { IsTrue result ↔ (told_by deed.now ≡ None) }
{
    match told(deed) {
        None => true,
        Some(_) => false,
    }
}

/// Whether a deed is a request's.
fn requests(deed: &Deed) -> bool
    ensures { result ≡ is_request deed.now }
{
    match deed {
        Deed::GiveWaits(_) => true,
        Deed::GiveMeets(_, _) => true,
        Deed::GiveFails(_) => true,
        Deed::GiveKept(_) => true,
        Deed::TakeWaits => true,
        Deed::TakeMeets(_, _) => true,
        Deed::TakeFails => true,
        Deed::EntryInterrupted(_) => true,
        Deed::Done => false,
        Deed::Got(_, _) => false,
        Deed::Withdrawn(_) => false,
        Deed::Interrupt(_) => false,
    }
}

/// Whether what the deed tells is what the call answered, if it ended.
pub(crate) fn tells(call: &Call, deed: &Deed) -> bool
    ensures { IsTrue result ↔ Tells call.now deed.now }
{
    match told(deed) {
        None => true,
        Some(answer) => match call.returned {
            None => true,
            Some(returned) => returned.answer == answer,
        },
    }
}

/// Whether the call ended before this time.
fn has_ended(call: &Call, time: u64) -> bool
    ensures { IsFalse result ↔ IfSome call.now.returned (λ r. time ≤ r.at) }
{
    match call.returned {
        None => false,
        Some(returned) => returned.at < time,
    }
}

/// Whether the deed may be made at this time.
pub(crate) fn is_within(call: &Call, time: u64, deed: &Deed) -> bool
    ensures { IsTrue result ↔ IsWithin call.now time deed.now }
{
    if time < call.begin {
        return false;
    }
    if has_ended(call, time) {
        return false;
    }
    if !requests(deed) {
        return true;
    }
    match call.waits {
        None => true,
        Some(by) => time <= by && goes_on(deed),
    }
}

/// How far a call is behind this record.
pub(crate) fn behind(stage: Stage, entry: &Record<Deed>) -> Stage
    ensures { result ≡ stage_after stage entry.now }
{
    match stage {
        Stage::Ahead => match told(&entry.deed) {
            None => Stage::Open(entry.ticket),
            Some(_) => Stage::Over,
        },
        Stage::Open(_) => Stage::Over,
        Stage::Over => Stage::Over,
    }
}

/// Whether the call may be left so.
fn may_stop(call: &Call, stage: Stage) -> bool
    ensures { IsTrue result ↔ MayStop call.now stage }
{
    match stage {
        Stage::Ahead => call.returned.is_none() && call.waits.is_none(),
        Stage::Open(_) => call.returned.is_none(),
        Stage::Over => true,
    }
}

/// Whether each call may be left as it is.
pub(crate) fn may_all_stop(calls: &[Call], window: &Window) -> bool
    ensures { IsTrue result ↔ MayAllStop calls.now (stage_at window.now) }
{
    for number in window.first..calls.len() {
        if !may_stop(&calls[number], stage(window, number)) {
            return false;
        }
    }
    true
}
