//! What the jobs of a demo run returned, by its records.

ghost use Rattle.std.specs.Prelude.{◌≡◌, IfSome};
ghost use Rattle.pool_drive.specs.Driven.{answer_of, done_in, sum_in};

use meet_tickets::Record;
use pool_core::PoolDeed;

/// What a job returned, if this deed states it.
fn answer_of(deed: PoolDeed<u64>) -> Option<u64>
    ensures { result ≡ answer_of deed }
{
    match deed {
        PoolDeed::Finished(answer) => Some(answer),
        _ => None,
    }
}

/// Counts the jobs that are done.
pub fn count_done(records: &[Record<PoolDeed<u64>>]) -> u64
    ensures { result ≡ done_in records.now }
{
    let done = records
        .iter()
        .filter(|entry| answer_of(entry.deed).is_some());
    done.count() as u64
}

/// Returns the sum of what they returned; None if it is 2^64 or more.
pub fn sum_answered(records: &[Record<PoolDeed<u64>>]) -> Option<u64>
    ensures { IfSome result (λ sum. sum ≡ sum_in records.now) }
{
    let mut sum: u64 = 0;
    for entry in records {
        sum = sum.checked_add(answer_of(entry.deed).unwrap_or(0))?;
    }
    Some(sum)
}
