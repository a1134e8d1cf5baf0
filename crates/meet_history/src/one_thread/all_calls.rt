//! The calls of one thread, all at once.

ghost use Rattle.std.specs.Prelude.{◌≡◌, ◌+◌, ◌^◌, ◌<◌, length, IsTrue, All, IfOk, IfErr};
ghost use Rattle.meet_tickets.specs.Bases.{IsWellFormed, IsLegalOn};
ghost use Rattle.meet_tickets.specs.declared.refusals.Refusal.TheVariants.{Memory};
ghost use Rattle.meet_history.specs.OneThread.{replies, records, start, turns};
ghost use Rattle.meet_history.specs.Standings.{IsFolded};
ghost use Rattle.meet_history.specs.Served.{serves};
ghost use Rattle.meet_history.specs.Limits.{IsInLimits};

use super::{Call, Reply, Setup, Stepper};
use meet_tickets::{Base, Deed, Record, Refusal};
use std::alloc::Global;

/// The results of one thread's calls.
#[derive(Debug, Drop)]
pub struct Run {
    /// The replies, in order.
    pub replies: Vec<Reply>,
    /// The snapshot of the compacted records.
    pub base: Base,
    /// The records since, in order.
    pub records: Vec<Record<Deed>>,
}

/// Makes these calls, one after another, on a place of this setup, and returns the replies and the records. Those that
/// checkpoints compacted are in the base. The setup has to be in its limits, as what `Setup::new` returns is, and the
/// place has to have each call's operation (`is_served`).
///
/// # Errors
/// - Memory, if an allocation fails.
///
/// # Example
/// From `crates/meet_history_tests/src/calls.rt`:
///
///     run_all(alloc, TRANSFER, calls).expect(rt, "memory")
pub fn run_all(alloc: Global, setup: Setup, calls: &[Call]) -> Result<Run, Refusal>
    requires verbs { All (λ call. IsTrue (serves setup.kind.order call.verb)) calls.now }
    requires limits { IsInLimits setup }
    ensures replies { IfOk result (λ run. run.replies.items ≡ replies setup calls.now) }
    ensures records { IfOk result (λ run. IsFolded setup.kind (records setup calls.now) run.base run.records.items) }
    ensures gone { IfOk result (λ run. run.base.gone ≡ (turns setup (start setup) calls.now).place.gone) }
    ensures well_formed { IfOk result (λ run. IsWellFormed setup.kind run.base) }
    ensures legal { IfOk result (λ run. IsLegalOn setup.kind run.base run.records.items) }
    ensures few { IfOk result (λ run. run.base.gone + length run.records.items < 2 ^ 64) }
    ensures memory { IfErr result (λ why. why ≡ Memory) }
{
    let mut stepper = Stepper::new(alloc, setup)?;
    let mut replies = Vec::new(alloc);
    for call in calls {
        stepper.answer(*call, &mut replies)?;
    }
    let (base, records) = stepper.into_parts();
    Ok(Run {
        replies,
        base,
        records,
    })
}
