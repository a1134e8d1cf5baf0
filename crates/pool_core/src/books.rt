//! The logs (the books) of new pools.

ghost use Rattle.std.specs.Prelude.{◌≡◌, ◌<◌, ◌≤◌, None, [], replicate, IfOk, IfErr};
ghost use Rattle.meet_tickets.specs.Limits.{most_records};
ghost use Rattle.meet_tickets.specs.Refusals.{IsWhy};
ghost use Rattle.pool_core.specs.declared.stages.Stage.TheVariants.{Absent};
ghost use Rattle.pool_core.specs.Histories.{nobody, no_base};
ghost use Rattle.pool_core.specs.Calls.{settings_refusal};

use crate::pool::PoolCore;
use crate::settings::{Policy, PoolQueue, Sizes};
use meet_book::Book;
use meet_tickets::{Marked, Refusal};
use std::alloc::Global;

/// Creates the log of a new pool. `cap` is its capacity in records, 1 to 1,048,576.
///
/// # Errors
/// - BadSizes or PolicyNeedsBuffer, exactly if `settings_refusal` states it.
/// - Memory, if an allocation fails.
pub fn book_of_pool<J: Marked>(
    alloc: Global,
    sizes: Sizes,
    queue: PoolQueue,
    policy: Policy,
    cap: u64,
) -> Result<Book<PoolCore<J>>, Refusal>
    requires cap_from { 0 < cap }
    requires cap_to { cap ≤ most_records }
    ensures fresh { IfOk result (λ book. book.object.pool ≡ nobody (replicate sizes.maximum Absent)) }
    ensures settings { IfOk result (λ book. book.object.settings
        ≡ record { sizes = sizes; queue = queue; policy = policy }) }
    ensures next { IfOk result (λ book. book.object.next ≡ 1) }
    ensures base { IfOk result (λ book. book.base ≡ no_base) }
    ensures records { IfOk result (λ book. book.records ≡ []) }
    ensures cap { IfOk result (λ book. book.cap ≡ cap) }
    ensures fits { IfOk result (λ _. settings_refusal (record { sizes = sizes; queue = queue; policy = policy })
        ≡ None) }
    ensures why { IfErr result (IsWhy (settings_refusal (record { sizes = sizes; queue = queue; policy = policy }))) }
{
    match PoolCore::new(alloc, sizes, queue, policy) {
        Ok(pool) => Ok(Book::new(alloc, pool, cap)),
        Err(why) => Err(why),
    }
}
