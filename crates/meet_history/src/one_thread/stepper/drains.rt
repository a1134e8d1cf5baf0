//! The drains of a stepper.

ghost use Rattle.std.specs.Prelude.{◌≡◌, ◌+◌, ◌≤◌, ◌++◌, length, map, min, vec_len, OnOk, OnErr, IfErr};
ghost use Rattle.std.specs.Vec.{vec_capacity};
ghost use Rattle.meet_history.specs.Stepping.{reply_of, back_of};
ghost use Rattle.meet_tickets.specs.declared.refusals.Refusal.TheVariants.{Memory};

use super::{Stepper, refused_unless_memory, reply_of};
use crate::one_thread::replies::push_reserved;
use crate::one_thread::{Outcome, Reply};
use meet_book::{Drains, Receipt};
use meet_queues::QueueAnswer;
use meet_tickets::{Deed, Refusal, SeatNo};

impl Stepper {
    ghost use Rattle.meet_history.specs.declared.one_thread.verbs.Verb.TheVariants.{Drain};
    ghost use Rattle.meet_history.specs.OneThread.{turn_of};
    ghost use Rattle.meet_history.specs.Stepping.{place_of, Takes, StaysButForRoom};

    /// Takes up to so many items, one poll after another: a reply for each, and then their number.
    pub(super) fn drain(
        &mut self,
        seat: SeatNo,
        most: u64,
        replies: &mut Vec<Reply>,
    ) -> Result<(), Refusal>
        ensures replies { OnOk result (replies.new.items ≡ replies.old.items
            ++ (turn_of self.old.setup (place_of self.old) seat (Drain most)).replies) }
        ensures takes { OnOk result (Takes (turn_of self.old.setup (place_of self.old) seat (Drain most)) self.old
            self.new) }
        ensures stay { OnErr result (replies.new.items ≡ replies.old.items) }
        ensures unchanged { OnErr result (StaysButForRoom self.old self.new) }
        ensures memory { IfErr result (λ why. why ≡ Memory) }
    {
        let count = most.min(self.book.probe().available());
        if replies.reserve((count as usize).saturating_add(1)).is_err() {
            return Err(Refusal::Memory);
        }
        let got = match self.book.drain(self.alloc, seat, most) {
            Ok(got) => got,
            Err(why) => match refused_unless_memory(seat, why) {
                Ok(reply) => {
                    push_reserved(replies, reply);
                    return Ok(());
                }
                Err(why) => return Err(why),
            },
        };
        push_polls(replies, seat, got.as_slice());
        push_reserved(
            replies,
            Reply {
                seat,
                outcome: Outcome::Drained(count),
            },
        );
        Ok(())
    }
}

/// Puts the replies of a drain's polls behind others, where there is room.
fn push_polls(replies: &mut Vec<Reply>, seat: SeatNo, got: &[(QueueAnswer<u64>, Receipt<Deed>)])
    requires { vec_len replies.old + length got.now ≤ vec_capacity replies.old }
    ensures replies { replies.new.items ≡ replies.old.items
        ++ map (λ one. reply_of seat one.1 (back_of one.0)) got.now }
    ensures capacity { vec_capacity replies.new ≡ vec_capacity replies.old }
{
    for one in got {
        push_reserved(replies, reply_of(seat, &one.1, &one.0));
    }
}
