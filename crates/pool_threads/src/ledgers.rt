//! The ledgers (ghost counters) of a pool, which fix what it was made with.

ghost use Rattle.std.specs.Prelude.{false};
ghost use Rattle.pool_core.specs.declared.settings.Settings.{Settings};
ghost use Rattle.pool_core.specs.declared.settings.PoolQueue.TheVariants.{Unbounded};
ghost use Rattle.pool_core.specs.declared.settings.Policy.TheVariants.{Abort};

use meet_place::Ledgers;
use std::marker::Brand;

/// Distinguishes the two ledgers of one pool from those of others, and states what that pool was made with.
pub trait PoolLedgers: Ledgers {
    /// The sizes, the queue and the policy that the pool was made with.
    ghost settings: { Settings };
}

impl PoolLedgers for Brand {
    ghost settings = { record {
      sizes = record {
        core = 0;
        maximum = 0;
        callers = 0;
        keep_alive = 0;
        core_timeout = false;
      };
      queue = Unbounded;
      policy = Abort;
    } };
}
