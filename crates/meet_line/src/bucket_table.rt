//! The table of a roll: for each bucket the key of its newest ticket.

ghost use Rattle.std.specs.Prelude.{◌≡◌, ℕ, ◌*◌, ◌%◌, ◌^◌, ◌<◌, ◌≤◌, None, IfSome, OnOk, OnErr, vec_len, replicate};
ghost use Rattle.meet_line.specs.Rolled.{IsTableSize};

use crate::nodes::Link;
use std::alloc::AllocError;

/// The bucket of a ticket, where there are so many: its lowest bits, as their number is a power of two.
pub(crate) fn bucket_of(ticket: u64, count: usize) -> usize
    requires some { 0 < count }
    requires size { IsTableSize count }
    ensures is { result ≡ ticket % count }
    ensures within { result < count }
{
    ticket as usize & (count - 1)
}

/// A power of two, neither below `needed` nor below `count`, which is one or 0, and no greater one than must be; none
/// where that is too great.
pub(crate) fn doubled(count: usize, needed: usize) -> Option<usize>
    requires { IsTableSize count }
    ensures enough { IfSome result (λ size. needed ≤ size) }
    ensures grown { IfSome result (λ size. count ≤ size) }
    ensures power { IfSome result (λ size. (k : ℕ) × (size ≡ 2 ^ k)) }
    ensures least { IfSome result (λ size. count < needed → size < 2 * needed) }
{
    let mut size = count.max(1);
    while size < needed {
        if size > usize::MAX / 2 {
            return None;
        }
        size *= 2;
    }
    Some(size)
}

/// A table of so many empty buckets, in the place of a shorter one, which stays as it was where there is no memory.
pub(crate) fn empty_out(table: &mut Vec<Link>, size: usize) -> Result<(), AllocError>
    requires { vec_len table.old ≤ size }
    ensures emptied { OnOk result (table.new.items ≡ replicate size None) }
    ensures unchanged { OnErr result (table.new.items ≡ table.old.items) }
{
    table.reserve(size - table.len())?;
    table.clear();
    table.resize(size, Link::none())
}
