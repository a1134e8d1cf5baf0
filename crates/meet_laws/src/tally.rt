//! Where the items of producers are, as counts.

ghost use Rattle.std.specs.Prelude.{◌≡◌, ℕ, ◌++◌, ◌+◌, ◌<◌, ◌≤◌, ◌^◌, not, is_some, count_by, length};
ghost use Rattle.meet_tickets.specs.Bases.{IsWellFormed, IsLegalOn};
ghost use Rattle.meet_tickets.specs.Fates.{opening};
ghost use Rattle.meet_tickets.specs.declared.places.Kind.{Kind};
ghost use Rattle.meet_core.specs.LeftTold.{AreLeftOn};
ghost use Rattle.meet_laws.specs.Tally.{gives, meets, is_give_meets, is_got, is_taker, stands_kept, tally_in};
ghost use Rattle.meet_laws.specs.Tally.{met_on, gave_on, takers_met_on};

use meet_core::{Left, LeftStanding};
use meet_tickets::{Base, Deed, Entry, OpenCut, OpenPair, Record, Side};

/// Where the items of producers are, as counts.
#[derive(Clone, Copy, PartialEq, Eq, Debug)]
pub struct Tally {
    /// Items that went to a consumer.
    pub delivered: u64,
    /// Items that were returned to their producer.
    pub returned: u64,
    /// Items that are buffered.
    pub kept: u64,
    /// Items whose producer waits, or was interrupted and isn't completed.
    pub offered: u64,
}

/// Whether a request is a producer's.
fn gives(deed: &Deed) -> bool
    ensures { result ≡ gives deed.now }
{
    matches!(
        deed,
        Deed::GiveWaits(_)
            | Deed::GiveMeets(_, _)
            | Deed::GiveFails(_)
            | Deed::GiveKept(_)
            | Deed::EntryInterrupted(Side::Giver)
    )
}

/// Whether a request met a counterpart.
fn meets(deed: &Deed) -> bool
    ensures { result ≡ meets deed.now }
{
    matches!(deed, Deed::GiveMeets(_, _) | Deed::TakeMeets(_, _))
}

/// How many of these requests are producers'.
fn count_gives(records: &[Record<Deed>]) -> u64
    ensures count { result ≡ count_by (λ r. gives r.deed) records.now }
    ensures few { result < 2 ^ 63 }
{
    records.iter().filter(|entry| gives(&entry.deed)).count() as u64
}

/// How many of these requests met a counterpart.
fn count_meets(records: &[Record<Deed>]) -> u64
    ensures count { result ≡ count_by (λ r. meets r.deed) records.now }
    ensures few { result < 2 ^ 63 }
{
    records.iter().filter(|entry| meets(&entry.deed)).count() as u64
}

/// How many of these requests are of producers that met a consumer.
fn count_give_meets(records: &[Record<Deed>]) -> u64
    ensures count { result ≡ count_by (λ r. is_give_meets r.deed) records.now }
    ensures few { result < 2 ^ 63 }
{
    let met = records
        .iter()
        .filter(|entry| matches!(entry.deed, Deed::GiveMeets(_, _)));
    met.count() as u64
}

/// How many of these records complete a consumer as matched.
fn count_gots(records: &[Record<Deed>]) -> u64
    ensures count { result ≡ count_by (λ r. is_got r.deed) records.now }
    ensures few { result < 2 ^ 63 }
{
    let got = records
        .iter()
        .filter(|entry| matches!(entry.deed, Deed::Got(_, _)));
    got.count() as u64
}

/// How many nodes of a wait queue are producers'.
fn count_givers(line: &[Entry<u64>]) -> u64
    ensures count { result ≡ count_by (λ e. is_some e.item) line.now }
    ensures few { result < 2 ^ 63 }
{
    line.iter().filter(|entry| entry.item.is_some()).count() as u64
}

/// How many tickets that were interrupted are producers'.
fn count_cut(cut: &[OpenCut]) -> u64
    ensures count { result ≡ count_by (λ c. is_some c.item) cut.now }
    ensures few { result < 2 ^ 63 }
{
    cut.iter().filter(|cut| cut.item.is_some()).count() as u64
}

/// How many open pairs are of consumers that waited.
fn count_takers(pairs: &[OpenPair]) -> u64
    ensures count { result ≡ count_by (λ p. is_taker p.side) pairs.now }
    ensures few { result < 2 ^ 63 }
{
    let takers = pairs.iter().filter(|pair| matches!(pair.side, Side::Taker));
    takers.count() as u64
}

/// Whether an item is left as buffered.
fn stands_kept(standing: LeftStanding) -> bool
    ensures { result ≡ stands_kept standing }
{
    matches!(standing, LeftStanding::Kept)
}

/// How many of these items are buffered.
fn count_kept<T>(left: &[Left<T>]) -> u64
    ensures count { result ≡ count_by (λ a. stands_kept a.standing) left.now }
{
    let mut count = 0;
    for one in left {
        if stands_kept(one.standing) {
            count += 1;
        }
    }
    count
}

/// How many aren't.
fn count_others<T>(left: &[Left<T>]) -> u64
    ensures count { result ≡ count_by (λ a. not (stands_kept a.standing)) left.now }
{
    let mut count = 0;
    for one in left {
        if !stands_kept(one.standing) {
            count += 1;
        }
    }
    count
}

/// How many pairs there are.
fn count_pairs(pairs: &[OpenPair]) -> u64
    ensures count { result ≡ length pairs.now }
    ensures few { result < 2 ^ 63 }
{
    pairs.len() as u64
}

/// How many are left of `gave` without these; they are at most `most`.
fn rest_of(gave: u128, delivered: u64, kept: u64, offered: u64, most: usize) -> u64
    ensures { (rest : ℕ) → gave ≡ delivered + rest + kept + offered → rest ≤ most → result ≡ rest }
{
    let undelivered = gave.saturating_sub(delivered as u128);
    let unkept = undelivered.saturating_sub(kept as u128);
    let rest = unkept.saturating_sub(offered as u128);
    rest.min(most as u128) as u64
}

/// How many requests are producers', by a base and the records since.
fn gave_on(base: &Base, records: &[Record<Deed>]) -> u128
    ensures { result ≡ gave_on base.now records.now }
{
    let line = count_givers(base.line.as_slice()) as u128;
    let pairs = count_pairs(base.pairs.as_slice()) as u128;
    let cut = count_cut(base.cut.as_slice()) as u128;
    line + pairs + cut + count_gives(records) as u128
}

/// Counts the items that went to a consumer, by a base and the records since: the requests that met a counterpart. It
/// doesn't allocate, and reads each record once.
pub fn delivered(base: &Base, records: &[Record<Deed>]) -> u64
    ensures met { result ≡ met_on base.now records.now }
    ensures tally { (k : Kind) → IsWellFormed k base.now → IsLegalOn k base.now records.now
        → result ≡ (tally_in (opening base.now ++ records.now)).delivered }
{
    count_pairs(base.pairs.as_slice()) + count_meets(records)
}

/// How many consumers that waited were matched, by a base and the records since.
fn takers_met_on(base: &Base, records: &[Record<Deed>]) -> u64
    ensures { result ≡ takers_met_on base.now records.now }
{
    count_takers(base.pairs.as_slice()) + count_give_meets(records)
}

/// Counts the items of producers by where they are, if these records and the items that are left are of one place,
/// since its base. It doesn't allocate, and reads each of them a few times.
pub fn reckon<T>(base: &Base, records: &[Record<Deed>], left: &[Left<T>]) -> Tally
    ensures delivered { result.delivered ≡ met_on base.now records.now }
    ensures tally { (k : Kind) → (mark : T → ℕ) → IsWellFormed k base.now → IsLegalOn k base.now records.now
        → AreLeftOn mark base.now records.now left.now → result ≡ tally_in (opening base.now ++ records.now) }
{
    let delivered = delivered(base, records);
    let awaiting = takers_met_on(base, records).saturating_sub(count_gots(records));
    let kept = count_kept(left);
    let offered = count_others(left).saturating_sub(awaiting);
    let gave = gave_on(base, records);
    let returned = rest_of(gave, delivered, kept, offered, records.len());
    Tally {
        delivered,
        returned,
        kept,
        offered,
    }
}
