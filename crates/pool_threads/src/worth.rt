//! The seat of a worker.

ghost use Rattle.std.specs.Prelude.{ℕ, ◌≡◌, ◌+◌, ◌^◌, ◌<◌, ◌≤◌, ◌⊎◌, false, [], length, option_to_list, IfOk, IfErr};
ghost use Rattle.std.specs.Prelude.{OnOk};
ghost use Rattle.meet_tickets.specs.declared.refusals.Refusal.TheVariants.{Memory};
ghost use Rattle.meet_book.specs.Listed.{is_since};
ghost use Rattle.meet_place.specs.Seats.{Adds, Trims, share_in};
ghost use Rattle.pool_core.specs.Placed.{pool_record};
ghost use Rattle.pool_core.specs.Pools.{worker_of};
ghost use Rattle.pool_core.specs.Moves.{IsMade, Moves, jobs_of};
ghost use Rattle.pool_core.specs.declared.calls.PoolCall.TheVariants.{Finish};
ghost use Rattle.pool_threads.specs.Worthy.{IsWorthy, EndsRunningWorth, stay_together};

use crate::jobs::Work;
use meet_book::Receipt;
use meet_place::{Ledgers, Seat, Shared};
use meet_tickets::{Refusal, SeatNo};
use pool_core::{PoolAnswer, PoolCall, PoolCore, PoolDeed};
use std::marker::{Model, PhantomData};

/// The seat of a worker. In its list each finished job's number is what its tag is worth.
#[derive(Drop)]
pub struct WorkerSeat<W: Work, N: Ledgers> {
    seat: Seat<PoolDeed<u64>, N>,
    /// How many records were folded away when it let go of receipts last.
    seen: u64,
    of: PhantomData<W>,
}

impl<W: Work, N: Ledgers> Model for WorkerSeat<W, N> {
    ghost use Rattle.std.specs.Prelude.{ℕ};
    ghost use Rattle.meet_place.specs.Seats.{SeatView};
    ghost use Rattle.pool_core.specs.declared.deeds.PoolDeed.{PoolDeed as Told};
    ghost use Rattle.pool_threads.specs.Worthy.{IsWorthy};

    ghost Value = { SeatView (Told ℕ) };

    ghost view = { λ s. s.seat };

    ghost invariant = { λ s. IsWorthy W.worth s.seat.list };
}

/// How many receipts lie in a worker's list before it lets go of some: our choice. So each is looked at a few times
/// only.
const MANY: usize = 1_024;

/// So many of the first records, or as many as stand before the start of the first answer that isn't among them.
fn whole_upto(list: &[Receipt<PoolDeed<u64>>], gone: u64) -> u64
    ensures { result ≤ gone }
{
    let mut before = None;
    for receipt in list {
        let place = receipt.place();
        if gone < place {
            return match (before, receipt.entry().deed) {
                (Some(start), PoolDeed::Finished(_)) => gone.min(start).saturating_sub(1),
                _ => gone,
            };
        }
        before = Some(place);
    }
    gone
}

/// Whether each answer that isn't among the first `gone` records has its start in none of these either.
fn stay_together(list: &[Receipt<PoolDeed<u64>>], gone: u64) -> bool
    ensures { result ≡ stay_together (is_since gone) false list.now }
{
    let mut before = false;
    for receipt in list {
        let stays = gone < receipt.place();
        if stays && !before {
            if let PoolDeed::Finished(_) = receipt.entry().deed {
                return false;
            }
        }
        before = stays;
    }
    true
}

impl<W: Work, N: Ledgers> WorkerSeat<W, N> {
    /// Creates the seat of a worker, without a receipt.
    pub fn new(seat: Seat<PoolDeed<u64>, N>) -> Self
        requires { seat.list ≡ [] }
        ensures { result ≡ seat }
    {
        WorkerSeat {
            seat,
            seen: 0,
            of: PhantomData,
        }
    }

    /// Returns the seat.
    pub fn into_seat(self) -> Seat<PoolDeed<u64>, N>
        ensures same { result ≡ self }
        ensures worthy { IsWorthy W.worth result.list }
    {
        let WorkerSeat { seat, .. } = self;
        seat
    }

    /// Returns its number.
    pub fn number(&self) -> SeatNo
        ensures { result ≡ self.now.number }
    {
        self.seat.number()
    }

    /// Makes room for `receipts` receipts.
    ///
    /// # Errors
    /// Nothing has changed.
    /// - Memory, if an allocation fails.
    pub fn reserve(&mut self, receipts: usize) -> Result<(), Refusal>
        ensures room { OnOk result (receipts ≤ self.new.room) }
        ensures number { self.new.number ≡ self.old.number }
        ensures past { self.new.past ≡ self.old.past }
        ensures moment { self.new.moment ≡ self.old.moment }
        ensures list { self.new.list ≡ self.old.list }
        ensures memory { IfErr result (λ why. why ≡ Memory) }
        ensures unchanged { IfErr result (λ _. self.new ≡ self.old) }
    {
        self.seat.reserve(receipts)
    }

    /// Returns true if its list is long, and records were compacted since it dropped receipts last. `gone` is how many
    /// are compacted by now.
    pub fn is_to_forget(&self, gone: u64) -> bool {
        self.seen < gone && self.seat.receipts().len() >= MANY
    }

    /// Drops the receipts for the first `gone` records, but not that of a start whose answer stays. It doesn't
    /// allocate.
    pub fn forget(&mut self, gone: u64)
        requires { share_in self.old < 2 ^ 64 }
        ensures list { (self.new ≡ self.old) ⊎ ((upto : ℕ) × (upto ≤ gone) × Trims upto self.old self.new) }
        ensures room { self.old.room ≤ self.new.room }
    {
        let upto = whole_upto(self.seat.receipts(), gone);
        self.seen = gone;
        // In a list whose receipts rise, as all do, each start stays whose answer does.
        if stay_together(self.seat.receipts(), upto) {
            self.seat.forget(upto);
        }
    }

    /// Returns how many records were compacted, checked for this seat, whose share is no more than all records.
    pub fn gone_in(&mut self, shared: &mut Shared<PoolCore<u64>, N>) -> u64
        ensures fits { share_in self.new < 2 ^ 64 }
        ensures same { self.new ≡ self.old }
        ensures shared { shared.new ≡ shared.old }
    {
        shared.gone_for(&mut self.seat)
    }

    /// Makes a step. A Finish has the number that the job with which the list ends is worth.
    ///
    /// # Errors
    /// Nothing has changed. The reason is the core's or the log's; the contract leaves it open.
    #[inline(always)]
    pub fn step(
        &mut self,
        shared: &mut Shared<PoolCore<u64>, N>,
        call: PoolCall<u64>,
    ) -> Result<PoolAnswer<u64>, Refusal>
        requires room { 0 < self.old.room }
        requires finish { (answer : _) → (call ≡ Finish answer) → EndsRunningWorth W.worth self.old.list answer }
        ensures number { self.new.number ≡ self.old.number }
        ensures past { self.new.past ≡ self.old.past }
        ensures room { length self.new.list + self.new.room ≡ length self.old.list + self.old.room }
        ensures adds { IfOk result (λ answer. Adds self.old.list self.new.list
            (option_to_list (pool_record (λ x. x) self.old.number call answer))) }
        ensures moves { IfOk result (λ answer. Moves (worker_of shared.old.object.settings self.old.number) call answer
            (jobs_of shared.old.object.pool) (jobs_of shared.new.object.pool)) }
        ensures made { IfOk result (λ answer. IsMade shared.old.object self.old.number call answer shared.new.object) }
        ensures settings { shared.new.object.settings ≡ shared.old.object.settings }
        ensures same { IfErr result (λ _. (self.new ≡ self.old)
            × (jobs_of shared.new.object.pool ≡ jobs_of shared.old.object.pool)) }
    {
        match shared.step(&mut self.seat, call) {
            Ok(answer) => Ok(answer),
            Err(refused) => Err(refused.why),
        }
    }
}
