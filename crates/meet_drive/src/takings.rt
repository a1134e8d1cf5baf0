//! What the consumers of a demo run got, by its records.

ghost use Rattle.std.specs.Prelude.{◌≡◌, IfSome};
ghost use Rattle.meet_drive.specs.Driven.{mark_got, items_got, sum_got};

use meet_tickets::{Deed, Record};

/// The mark of the item that a call got.
fn mark_got(deed: Deed) -> Option<u64>
    ensures { result ≡ mark_got deed }
{
    match deed {
        Deed::TakeMeets(mark, _) => Some(mark),
        Deed::Got(mark, _) => Some(mark),
        _ => None,
    }
}

/// Counts the items that were got.
pub fn count_got(records: &[Record<Deed>]) -> u64
    ensures { result ≡ items_got records.now }
{
    let got = records
        .iter()
        .filter(|entry| mark_got(entry.deed).is_some());
    got.count() as u64
}

/// Returns the sum of their marks; None if it is 2^64 or more.
pub fn sum_got(records: &[Record<Deed>]) -> Option<u64>
    ensures { IfSome result (λ sum. sum ≡ sum_got records.now) }
{
    let mut sum: u64 = 0;
    for entry in records {
        sum = sum.checked_add(mark_got(entry.deed).unwrap_or(0))?;
    }
    Some(sum)
}
