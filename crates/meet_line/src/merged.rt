//! Two lists of nodes as one, merged by their tickets.

ghost use Rattle.std.specs.Prelude.{◌≡◌, List, map, drop, IfOk, IfErr};
ghost use Rattle.std.specs.Slice.{IsItemAt};
ghost use Rattle.meet_tickets.specs.declared.lines.Entry.{Entry};
ghost use Rattle.meet_tickets.specs.declared.refusals.Refusal.TheVariants.{Memory};
ghost use Rattle.meet_line.specs.Merged.{merged, Rises, is_buffered_next};

use meet_tickets::{Entry, Refusal};
use std::alloc::Global;

/// Whether the first of both is a buffered item, by the first node of each.
#[inline(always)]
pub(crate) fn is_next<T>(waiting: Option<&Entry<T>>, buffered: Option<&Entry<T>>) -> bool
    ensures { (xs ys : List (Entry T)) → IsItemAt xs 0 waiting.entry → IsItemAt ys 0 buffered.entry
        → result ≡ is_buffered_next xs ys }
{
    let Some(buffered) = buffered else {
        return false;
    };
    let Some(waiting) = waiting else {
        return true;
    };
    buffered.ticket.number() < waiting.ticket.number()
}

/// Whether the first of both is a buffered item, where these indices are the first of each.
fn is_next_at<T>(waiting: &[&Entry<T>], at: usize, buffered: &[&Entry<T>], from: usize) -> bool
    ensures { result ≡ is_buffered_next (drop at (map (λ e. e.now) waiting.now))
        (drop from (map (λ e. e.now) buffered.now)) }
{
    if from >= buffered.len() {
        return false;
    }
    if at >= waiting.len() {
        return true;
    }
    buffered[from].ticket.number() < waiting[at].ticket.number()
}

/// The nodes of both lists in order of arrival. Fails only if an allocation fails.
pub(crate) fn merge<'a, T>(
    alloc: Global,
    waiting: &[&'a Entry<T>],
    buffered: &[&'a Entry<T>],
) -> Result<Vec<&'a Entry<T>>, Refusal>
    requires seats { Rises (map (λ e. e.now) waiting.now) }
    requires rises { Rises (merged (map (λ e. e.now) waiting.now) (map (λ e. e.now) buffered.now)) }
    ensures entries { IfOk result (λ list. map (λ e. e.now) list.items
        ≡ merged (map (λ e. e.now) waiting.now) (map (λ e. e.now) buffered.now)) }
    ensures memory { IfErr result (λ why. why ≡ Memory) }
{
    let Some(count) = waiting.len().checked_add(buffered.len()) else {
        return Err(Refusal::Memory);
    };
    let Ok(mut list) = Vec::with_capacity(alloc, count) else {
        return Err(Refusal::Memory);
    };
    let mut at = 0;
    let mut from = 0;
    for _step in 0..count {
        if is_next_at(waiting, at, buffered, from) {
            list.push_reserved(buffered[from]);
            from += 1;
        } else {
            list.push_reserved(waiting[at]);
            at += 1;
        }
    }
    Ok(list)
}
