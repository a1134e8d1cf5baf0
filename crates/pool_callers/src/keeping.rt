//! Callers whose pool keeps its log.

use crate::handle::PoolHandle;
use crate::runs::PoolCaller;
use pool_threads::{Call, Work};

/// A caller whose handles keep the log (`PoolHandle::keep_log`): every record stands in the log of the closed pool, or in
/// a chapter that `rotate` returned.
///
/// # Example
/// From `crates/pool_callers_tests/src/keeping.rt`:
///
///     let done = run_pool(&rt, rt.alloc(), dropping(), &KeepLog(Many)).expect(&rt, "a pool");
#[derive(Drop)]
pub struct KeepLog<V>(pub V);

impl<W: Work, C: Call<W>, V: PoolCaller<W, C>> PoolCaller<W, C> for KeepLog<V> {
    type Output = V::Output;

    fn run<P: PoolHandle<W, C>>(&self, pool: &mut P) -> V::Output {
        pool.keep_log();
        self.0.run(pool)
    }
}
