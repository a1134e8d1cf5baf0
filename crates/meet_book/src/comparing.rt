//! The comparison of a book's records with the receipts that its seats have.

ghost use Rattle.std.specs.Prelude.{◌≡◌, ◌≢◌, ◌↔◌, ◌+◌, ◌<◌, ◌≤◌, ℕ, List, [], ◌∷◌, length, map, drop, slice_get};
ghost use Rattle.std.specs.Prelude.{Some, IsTrue, MatchOption, IfNone, IfSome};
ghost use Rattle.meet_tickets.specs.Limits.{most_seats};
ghost use Rattle.meet_book.specs.Listed.{of_seat, own_of, since, DifferAt, FewerOrThese};
ghost use Rattle.meet_book.specs.Listed.{AreListed, FirstDiffer};
ghost use Rattle.meet_book.specs.Received.{Received};

use crate::receipt::Receipt;
use meet_tickets::{Deed, Record, SeatNo};

/// What a record states of its step, if two of them can be compared.
pub trait Same: Copy {
    /// Returns true if the two are the same.
    fn same(&self, other: &Self) -> bool
        ensures { IsTrue result ↔ (self.now ≡ other.now) };
}

impl Same for Deed {
    fn same(&self, other: &Deed) -> bool {
        *self == *other
    }
}

/// What has the receipts of one seat.
pub trait Holds<D: Copy> {
    /// The receipts, in order.
    ghost held: { Self → List (Received D) };

    /// Returns the receipts, in order.
    fn receipts(&self) -> &[Receipt<D>]
        ensures { result.now ≡ held self.now };
}

impl<D: Copy> Holds<D> for Vec<Receipt<D>> {
    ghost held = { λ list. list.items };

    fn receipts(&self) -> &[Receipt<D>] {
        self.as_slice()
    }
}

/// Whether two records are the same.
fn is_same<D: Same>(one: &Record<D>, other: &Record<D>) -> bool
    ensures { IsTrue result ↔ (one.now ≡ other.now) }
{
    one.seat.number() == other.seat.number()
        && one.ticket.number() == other.ticket.number()
        && one.deed.same(&other.deed)
}

/// Returns true if a receipt is for this record: its entry and its number. Ahead of the record stand the first `gone`,
/// which were compacted, and `before` more.
fn is_for<D: Same>(receipt: &Receipt<D>, gone: u64, before: u64, entry: &Record<D>) -> bool
    requires { gone < receipt.now.place }
    ensures { IsTrue result ↔ (receipt.now ≡ record { place = gone + before + 1; entry = entry.now }) }
{
    receipt.place() - gone - 1 == before && is_same(&receipt.entry(), entry)
}

/// Counts the receipts of a seat's list down from `all`, where each is the record of its number, of this seat, and
/// their numbers rise. Receipts for records that were folded away, the first `gone`, don't count.
fn count_in_order<D: Same>(
    gone: u64,
    records: &[Record<D>],
    seat: SeatNo,
    list: &[Receipt<D>],
    all: usize,
) -> Option<usize>
    ensures count { IfSome result (λ unseen. unseen + length (since gone list.now) ≡ all) }
    ensures fewer { IfSome result (λ _. FewerOrThese (since gone list.now) (own_of gone records.now seat)) }
{
    let mut unseen = all;
    let mut next = 0;
    for receipt in list {
        let place = receipt.place();
        if gone < place {
            let index = place - gone - 1;
            if index < next as u64 || records.len() as u64 <= index || unseen == 0 {
                return None;
            }
            let entry = records[index as usize];
            if entry.seat.number() != seat.number() || !is_same(&entry, &receipt.entry()) {
                return None;
            }
            next = index as usize + 1;
            unseen -= 1;
        }
    }
    Some(unseen)
}

/// Whether the lists are the records by the receipts' own numbers: each list is in order, and all the lists together
/// are as long as the records. One look at each receipt.
fn is_whole<D: Same, H: Holds<D>>(gone: u64, records: &[Record<D>], seats: &[H]) -> bool
    requires few { length seats.now ≤ most_seats }
    ensures { IsTrue result → AreListed gone records.now (map H.held seats.now) }
{
    let mut unseen = records.len();
    for number in 0..seats.len() {
        let seat = SeatNo::new(number as u64).unwrap();
        match count_in_order(gone, records, seat, seats[number].receipts(), unseen) {
            Some(rest) => unseen = rest,
            None => return false,
        }
    }
    unseen == 0
}

/// The next receipt, from this index, for a record that wasn't folded away.
fn next_since<D: Copy>(gone: u64, list: &[Receipt<D>], from: usize) -> Option<usize>
    ensures none { IfNone result (since gone (drop from list.now) ≡ []) }
    ensures within { IfSome result (λ at. (from ≤ at) × (at < length list.now)) }
    ensures some { IfSome result (λ at. (receipt : Received D) → slice_get list.now at ≡ Some receipt
        → (gone < receipt.place) × (since gone (drop from list.now) ≡ receipt ∷ since gone (drop (at + 1) list.now))) }
{
    for at in from..list.len() {
        if gone < list[at].place() {
            return Some(at);
        }
    }
    None
}

/// The first index at which a seat's receipts and those for its records differ, in the record or in its number.
fn first_difference<D: Same>(
    gone: u64,
    records: &[Record<D>],
    seat: SeatNo,
    list: &[Receipt<D>],
) -> Option<u64>
    ensures { MatchOption result (own_of gone records.now seat ≡ since gone list.now)
        (λ index. DifferAt (own_of gone records.now seat) (since gone list.now) index) }
{
    let own = seat.number();
    let all = list.len();
    let mut index = 0;
    let mut at = 0;
    let mut before: u64 = 0;
    for entry in records {
        if entry.seat.number() == own {
            let found = match next_since(gone, list, at) {
                Some(found) => found,
                None => return Some(index),
            };
            if !is_for(&list[found], gone, before, entry) {
                return Some(index);
            }
            at = found + 1;
            index += 1;
        }
        before += 1;
    }
    match next_since(gone, list, at) {
        Some(_) => Some(index),
        None => None,
    }
}

/// The least seat from this number that a record is of.
fn least_from<D: Copy>(records: &[Record<D>], from: u64) -> Option<SeatNo>
    ensures none { IfNone result ((seat : ℕ) → from ≤ seat → of_seat seat records.now ≡ []) }
    ensures some { IfSome result (λ seat. (from ≤ seat) × (of_seat seat records.now ≢ [])) }
    ensures least { IfSome result (λ seat. (other : ℕ) → from ≤ other → other < seat
        → of_seat other records.now ≡ []) }
{
    let mut least: Option<SeatNo> = None;
    for entry in records {
        if from <= entry.seat.number() {
            least = match least {
                Some(seat) if seat.number() <= entry.seat.number() => Some(seat),
                _ => Some(entry.seat),
            };
        }
    }
    least
}

/// Compares each seat's receipts with those for its records. Returns None exactly if they are the same, for every seat,
/// in order, each with its record's number. Otherwise it returns the least seat whose aren't, with the first index at
/// which they differ, from 0 among the seat's records. Lists are by seat number, and a seat without one has no
/// receipts. Receipts for the first `gone` records, which were compacted, don't count. It doesn't allocate. If nothing
/// differs it looks at each receipt once.
pub fn compare<D: Same, H: Holds<D>>(
    gone: u64,
    records: &[Record<D>],
    seats: &[H],
) -> Option<(SeatNo, u64)>
    requires few { length seats.now ≤ most_seats }
    ensures none { IfNone result (AreListed gone records.now (map H.held seats.now)) }
    ensures some { IfSome result (λ first. FirstDiffer gone records.now (map H.held seats.now) first.0 first.1) }
{
    if is_whole(gone, records, seats) {
        return None;
    }
    for number in 0..seats.len() {
        let seat = SeatNo::new(number as u64).unwrap();
        if let Some(index) = first_difference(gone, records, seat, seats[number].receipts()) {
            return Some((seat, index));
        }
    }
    match least_from(records, seats.len() as u64) {
        Some(seat) => Some((seat, 0)),
        None => None,
    }
}
