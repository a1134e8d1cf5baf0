//! What the jobs of a closed pool returned.

ghost use Rattle.std.specs.Prelude.{◌≡◌, ◌++◌, ◌∷◌, [], Option, Some, None, IfOk, IfErr, map};
ghost use Rattle.meet_tickets.specs.declared.refusals.Refusal.TheVariants.{Memory as NoMemory};
ghost use Rattle.pool_callers.specs.Answers.{answers_in, answers_from, told_by, in_hand};

use meet_book::Receipt;
use meet_tickets::Refusal;
use pool_core::PoolDeed;
use pool_threads::PoolChronicle;
use std::alloc::Global;

/// What a job returned to its worker.
#[derive(Clone, Copy, PartialEq, Eq, Debug)]
pub struct Answer {
    /// The job's tag.
    pub job: u64,
    /// What it returned.
    pub value: u64,
}

/// The tag of the job that a worker runs after this deed, if it does.
fn running_after(deed: PoolDeed<u64>) -> Option<u64>
    ensures { result ≡ in_hand deed }
{
    match deed {
        PoolDeed::Runs(_, job) => Some(job),
        _ => None,
    }
}

/// The answer that this deed states of the job that its worker ran, if it states one.
fn answer_told(running: Option<u64>, deed: PoolDeed<u64>) -> Option<Answer>
    ensures { result ≡ told_by running deed }
{
    match (running, deed) {
        (Some(job), PoolDeed::Finished(value)) => Some(Answer { job, value }),
        _ => None,
    }
}

/// What one receipt of a worker tells.
fn told_by(running: Option<u64>, receipt: &Receipt<PoolDeed<u64>>) -> Option<Answer>
    ensures { result ≡ told_by running receipt.now.entry.deed }
{
    answer_told(running, receipt.entry().deed)
}

/// The tag of the job that a worker runs after this receipt, if it does.
fn in_hand(receipt: &Receipt<PoolDeed<u64>>) -> Option<u64>
    ensures { result ≡ in_hand receipt.now.entry.deed }
{
    running_after(receipt.entry().deed)
}

/// Puts the answers that one list tells behind others.
///
/// # Errors
/// - Memory, if an allocation fails.
fn push_answers(answers: &mut Vec<Answer>, list: &[Receipt<PoolDeed<u64>>]) -> Result<(), Refusal>
    ensures answers { IfOk result (λ _. answers.new.items ≡ answers.old.items ++ answers_from None list.now) }
    ensures memory { IfErr result (λ why. why ≡ NoMemory) }
{
    let mut running = None;
    for receipt in list {
        if let Some(answer) = told_by(running, receipt) {
            if answers.push(answer).is_err() {
                return Err(Refusal::Memory);
            }
        }
        running = in_hand(receipt);
    }
    Ok(())
}

/// Returns what the jobs of a closed pool returned to its workers, but for those whose records were compacted: a log that
/// is kept (`KeepLog`) has all. The answers stand worker by worker, in the order in which each ran its jobs. A job that
/// its caller ran isn't among them.
///
/// # Errors
/// - Memory, if an allocation fails.
///
/// # Example
/// From `crates/examples/src/pool.rt`:
///
///     for answer in answers_of(alloc, &done.log?)? {
pub fn answers_of<C>(alloc: Global, chronicle: &PoolChronicle<C>) -> Result<Vec<Answer>, Refusal>
    ensures answers { IfOk result (λ list. list.items
        ≡ answers_in (map (λ list. list.items) chronicle.now.lists.items)) }
    ensures memory { IfErr result (λ why. why ≡ NoMemory) }
{
    let mut answers = Vec::new(alloc);
    for list in chronicle.lists.as_slice() {
        push_answers(&mut answers, list.as_slice())?;
    }
    Ok(answers)
}
