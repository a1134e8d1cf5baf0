//! Laws about the histories of pools, and what follows for their books.

ghost use Rattle.std.specs.Prelude.{◌≡◌, ℕ, ◌+◌, ◌≤◌, ◌++◌, ◌∷◌, List, None};
ghost use Rattle.meet_tickets.specs.declared.records.Record.{Record as Entered};
ghost use Rattle.pool_core.specs.declared.settings.Settings.{Settings as Made};
ghost use Rattle.pool_core.specs.declared.deeds.PoolDeed.{PoolDeed as Told};
ghost use Rattle.pool_core.specs.declared.deeds.PoolDeed.TheVariants.{Finished};
ghost use Rattle.pool_core.specs.Histories.{Based, IsLegalOn, moment_of_base};
ghost use Rattle.pool_core.specs.Standings.{jobs_in, standings, standing_count, brought};
ghost use Rattle.pool_core.specs.Bases.{IsWellFormed};
ghost use Rattle.pool_core.specs.Worked.{RanOn};
ghost use Rattle.pool_core.specs.Promise.{JobsMeetOnce, TakesMeetOnce, PartnersMeet, WithdrawnMeetNone};
ghost use Rattle.pool_core.specs.Placed.{PoolStep, pool_refusal, pool_need};

use crate::calls::{PoolAnswer, PoolCall};
use crate::deeds::PoolDeed;
use crate::pool::PoolCore;
use meet_book::{Book, Receipt};
use meet_tickets::{Marked, SeatNo};

/// States that after a well-formed base and legal records each job has one status at most. The job of a ticket has as
/// many statuses as jobs of it were on the base or were executed since. It does nothing.
pub fn jobs_have_one_standing()
    ensures count { (s : Made) (b : Based) (records : List (Entered (Told ℕ))) → IsWellFormed s b
        → IsLegalOn s b records → (ticket : ℕ) → standing_count (standings s b records) ticket
        ≡ standing_count (jobs_in (moment_of_base s b).pool) ticket + brought records ticket }
    ensures once { (s : Made) (b : Based) (records : List (Entered (Told ℕ))) → IsWellFormed s b → IsLegalOn s b records
        → (ticket : ℕ) → standing_count (standings s b records) ticket ≤ 1 }
{}

/// States that each result that is recorded follows a record of the same seat that it runs the job of this ticket. No
/// record of that seat is in between. Or else the base states that it runs it. It does nothing.
pub fn answers_follow_starts()
    ensures { (s : Made) (b : Based) (front : List (Entered (Told ℕ))) (seat ticket answer : ℕ)
        (rest : List (Entered (Told ℕ)))
        → IsLegalOn s b (front ++ record { seat = seat; ticket = ticket; deed = Finished answer } ∷ rest)
        → RanOn s b front seat ticket }
{}

/// States that each job and each take of a worker is matched at most once. A job is handed over once at most and runs
/// once at most, with the take that it met, and not after it was over (`jobs`). A take is handed one job at most and
/// runs one at most, no other than it was handed (`takes`). A job meets the take that the queue's order meets, and a
/// worker that starts without one runs the oldest buffered job (`partners`). A take whose worker ended, or that a
/// shutdown interrupted, meets no job afterwards (`withdrawn`). It does nothing.
pub fn promise_is_kept()
    ensures jobs { (s : Made) (b : Based) (records : List (Entered (Told ℕ))) → IsWellFormed s b → IsLegalOn s b records
        → JobsMeetOnce s b records }
    ensures takes { (s : Made) (b : Based) (records : List (Entered (Told ℕ))) → IsWellFormed s b
        → IsLegalOn s b records → TakesMeetOnce s b records }
    ensures partners { (s : Made) (b : Based) (records : List (Entered (Told ℕ))) → IsWellFormed s b
        → IsLegalOn s b records → PartnersMeet s b records }
    ensures withdrawn { (s : Made) (b : Based) (records : List (Entered (Told ℕ))) → IsWellFormed s b
        → IsLegalOn s b records → WithdrawnMeetNone s b records }
{}

/// Makes a worker's step on a book. It never fails in a state that the call names.
pub fn work<J: Marked>(
    book: &mut Book<PoolCore<J>>,
    seat: SeatNo,
    call: PoolCall<J>,
) -> (PoolAnswer<J>, Option<Receipt<PoolDeed<u64>>>)
    requires worker { pool_need call ≡ 0 }
    requires state { pool_refusal book.old.object seat call ≡ None }
    ensures { PoolStep book.old.object seat call result.0 book.new.object }
{
    book.step(seat, call).unwrap()
}
