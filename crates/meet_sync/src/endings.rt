//! The completions of a pending request (an open ticket). None can fail, and none allocates.

ghost use Rattle.meet_tickets.specs.declared.records.Cause.TheVariants.{Cancelled, Expired};
ghost use Rattle.meet_sync.specs.Asking.{FollowedAs, TakenBackAs, TakenBackBy};
ghost use Rattle.meet_sync.specs.Told.{IsWithdrawal};

use crate::asked::{Followed, TakenBack};
use crate::queue::{Ending, Queue};
use meet_core::{QueueAnswer, QueuePlace};
use meet_place::{Gate, Ledgers, Pending};
use meet_tickets::Deed;
use std::sync::Wait;

impl<O: QueuePlace, G: Gate, N: Ledgers> Queue<O, G, N> {
    /// Follows a pending request up: returns how it ended, or NotYet while it waits in the wait queue. It waits only
    /// for the lock, and can't fail.
    ///
    /// # Example
    /// From `crates/meet_sync_tests/src/chapters.rt`:
    ///
    ///     match queue.follow_up(rt, pending) {
    ///         Followed::Got(seat, _, 7) => seat,
    #[inline(always)]
    pub fn follow_up<R: Wait>(&self, rt: &R, pending: Pending<Deed, N>) -> Followed<O::Item, N>
        ensures { FollowedAs O.kind O.Item.mark_of pending result }
    {
        let (mut seat, ticket, mark) = pending.into_parts();
        let Some(answer) = self.end(rt, &mut seat, (ticket, mark), Ending::FollowUp) else {
            return Followed::NotYet(Pending::new(seat, ticket, mark));
        };
        let QueueAnswer::Followed(followed) = answer else {
            unreachable!()
        };
        match followed {
            meet_core::Followed::Done => Followed::Done(seat),
            meet_core::Followed::Got(with, item) => Followed::Got(seat, with, item),
            meet_core::Followed::Interrupted(back) => Followed::Interrupted(seat, back),
            meet_core::Followed::NotYet => Followed::NotYet(Pending::new(seat, ticket, mark)),
        }
    }

    /// Takes a pending request back. If it was matched or interrupted before, returns Late, and it stays pending. It
    /// waits only for the lock, and can't fail.
    pub fn cancel<R: Wait>(&self, rt: &R, pending: Pending<Deed, N>) -> TakenBack<O::Item, N>
        ensures { TakenBackAs O.kind O.Item.mark_of pending Cancelled result }
    {
        self.withdraw(rt, pending, Ending::Cancel)
    }

    /// Takes a pending request back as `cancel` does, and logs an expiry: its time ran out. It can't fail.
    pub fn expire<R: Wait>(&self, rt: &R, pending: Pending<Deed, N>) -> TakenBack<O::Item, N>
        ensures { TakenBackAs O.kind O.Item.mark_of pending Expired result }
    {
        self.withdraw(rt, pending, Ending::Expire)
    }

    /// Takes an open ticket back by this ending, which is no follow-up.
    fn withdraw<R: Wait>(
        &self,
        rt: &R,
        pending: Pending<Deed, N>,
        ending: Ending,
    ) -> TakenBack<O::Item, N>
        requires withdrawal { IsWithdrawal ending }
        ensures { TakenBackBy O.kind O.Item.mark_of pending ending result }
    {
        let (mut seat, ticket, mark) = pending.into_parts();
        let Some(answer) = self.end(rt, &mut seat, (ticket, mark), ending) else {
            return TakenBack::Late(Pending::new(seat, ticket, mark));
        };
        let QueueAnswer::TakenBack(back) = answer else {
            unreachable!()
        };
        match back {
            meet_core::TakenBack::Back(item) => TakenBack::Back(seat, item),
            meet_core::TakenBack::Late => TakenBack::Late(Pending::new(seat, ticket, mark)),
        }
    }
}
