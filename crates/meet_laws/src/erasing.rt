//! Records without the tickets that were interrupted or withdrawn.

ghost use Rattle.std.specs.Prelude.{◌≡◌, ◌++◌, ◌∷◌, [], ◌&&◌, not, if◌then◌else◌, IfOk, IfErr, OnOk};
ghost use Rattle.std.specs.List.Sorted.{IsNonDecreasing, IsPermutation};
ghost use Rattle.meet_tickets.specs.declared.refusals.Refusal.TheVariants.{Memory};
ghost use Rattle.meet_laws.specs.Erasing.{erase};
ghost use Rattle.meet_laws.specs.Gone.{ends_early, gone_tickets, is_among, stays, staying_among};

use meet_tickets::{Deed, Record, Refusal};
use std::alloc::Global;

/// Whether a record withdraws its ticket, or interrupts it.
fn ends_early(entry: &Record<Deed>) -> bool
    ensures { result ≡ ends_early entry.now }
{
    match entry.deed {
        Deed::Withdrawn(_) => true,
        Deed::Interrupt(_) => entry.ticket.number() > 0,
        _ => false,
    }
}

/// Puts an item that passes at the end of a list. Fails only if an allocation fails.
fn push_where<T: Copy + Drop>(list: &mut Vec<T>, item: T, passes: bool) -> Result<(), Refusal>
    ensures pushed { OnOk result (list.new.items ≡ list.old.items ++ (if passes then item ∷ [] else [])) }
    ensures memory { IfErr result (λ why. why ≡ Memory) }
{
    if passes && list.push(item).is_err() {
        return Err(Refusal::Memory);
    }
    Ok(())
}

/// The tickets that these records withdraw or interrupt, in the records' order. Fails only if an allocation fails.
fn gone_tickets(alloc: Global, records: &[Record<Deed>]) -> Result<Vec<u64>, Refusal>
    ensures gone { IfOk result (λ gone. gone.items ≡ gone_tickets records.now) }
    ensures memory { IfErr result (λ why. why ≡ Memory) }
{
    let mut gone = Vec::new(alloc);
    for entry in records {
        push_where(&mut gone, entry.ticket.number(), ends_early(entry))?;
    }
    Ok(gone)
}

/// These tickets in rising order.
fn in_order(mut tickets: Vec<u64>) -> Vec<u64>
    ensures same { IsPermutation tickets.items result.items }
    ensures rising { IsNonDecreasing result.items }
{
    tickets.sort_unstable();
    tickets
}

/// Whether a ticket is among these, which rise.
fn is_among(tickets: &[u64], ticket: u64) -> bool
    requires rising { IsNonDecreasing tickets.now }
    ensures { result ≡ is_among tickets.now ticket }
{
    tickets.binary_search(&ticket).is_ok()
}

/// Whether a deed is such that it may be left: it is no interrupt, and no request that was refused at its entry.
fn stays(deed: &Deed) -> bool
    ensures { result ≡ stays deed.now }
{
    !matches!(deed, Deed::Interrupt(_) | Deed::EntryInterrupted(_))
}

/// Whether a record is left if these tickets, which rise, are gone.
fn may_stay(entry: &Record<Deed>, gone: &[u64]) -> bool
    requires rising { IsNonDecreasing gone.now }
    ensures { result ≡ (stays entry.now.deed && not (is_among gone.now entry.now.ticket)) }
{
    stays(&entry.deed) && !is_among(gone, entry.ticket.number())
}

/// The records that are left if these tickets, which rise, are gone. Fails only if an allocation fails.
fn staying_of(
    alloc: Global,
    records: &[Record<Deed>],
    gone: &[u64],
) -> Result<Vec<Record<Deed>>, Refusal>
    requires rising { IsNonDecreasing gone.now }
    ensures staying { IfOk result (λ staying. staying.items ≡ staying_among gone.now records.now) }
    ensures memory { IfErr result (λ why. why ≡ Memory) }
{
    let mut staying = Vec::new(alloc);
    for entry in records {
        push_where(&mut staying, *entry, may_stay(entry, gone))?;
    }
    Ok(staying)
}

/// Returns these records without those of tickets that were interrupted or withdrawn, the interrupts, and the requests
/// that were refused at their entry. It reads the records twice, and sorts the tickets that are gone.
///
/// # Errors
/// - Memory, if an allocation fails.
pub fn erase(alloc: Global, records: &[Record<Deed>]) -> Result<Vec<Record<Deed>>, Refusal>
    ensures erased { IfOk result (λ staying. staying.items ≡ erase records.now) }
    ensures memory { IfErr result (λ why. why ≡ Memory) }
{
    let gone = in_order(gone_tickets(alloc, records)?);
    staying_of(alloc, records, gone.as_slice())
}
