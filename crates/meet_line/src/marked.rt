//! A wait queue as histories see it: its items by their marks.

ghost use Rattle.std.specs.Prelude.{◌≡◌, map, option_map, IfOk, IfErr};
ghost use Rattle.meet_tickets.specs.declared.refusals.Refusal.TheVariants.{Memory};
ghost use Rattle.meet_line.specs.Seen.{marked_entry};

use crate::line::Line;
use meet_tickets::{Entry, Marked, Refusal};
use std::alloc::{AllocError, Global};

/// Returns the mark of an item, if there is one.
pub fn mark_of<T: Marked>(item: &Option<T>) -> Option<u64>
    ensures { result ≡ option_map T.mark_of item.now }
{
    match item {
        Some(item) => Some(item.mark()),
        None => None,
    }
}

/// An entry with its item by its mark.
fn marked<T: Marked>(entry: &Entry<T>) -> Entry<u64>
    ensures { result ≡ marked_entry T.mark_of entry.now }
{
    Entry {
        ticket: entry.ticket,
        seat: entry.seat,
        item: mark_of(&entry.item),
        waits: entry.waits,
    }
}

/// These entries with their items by their marks.
fn marked_all<T: Marked>(alloc: Global, list: &[&Entry<T>]) -> Result<Vec<Entry<u64>>, AllocError>
    ensures { IfOk result (λ copies. copies.items ≡ map (λ e. marked_entry T.mark_of e.now) list.now) }
{
    list.iter().map(|entry| marked(*entry)).collect(alloc)
}

/// Returns the nodes of a wait queue with their items by their marks, in order of arrival.
///
/// # Errors
/// - Memory, if an allocation fails.
pub fn marked_line<T: Marked, L: Line<T>>(
    alloc: Global,
    line: &L,
) -> Result<Vec<Entry<u64>>, Refusal>
    ensures entries { IfOk result (λ copies. copies.items ≡ map (marked_entry T.mark_of) (L.entries line.now)) }
    ensures memory { IfErr result (λ why. why ≡ Memory) }
{
    let list = line.list(alloc)?;
    match marked_all(alloc, list.as_slice()) {
        Ok(copies) => Ok(copies),
        Err(_) => Err(Refusal::Memory),
    }
}
