//! Receipts that are dropped behind a checkpoint.

use crate::shops::Shop;
use meet_sync::{Back, Ledgers};
use meet_tickets::Deed;
use std::sync::Wait;

/// A seat drops its receipts for records that are folded away, with an open ticket or without.
pub fn trimmed<G, N: Ledgers, R: Wait>(
    rt: &R,
    shop: &Shop<G, N>,
    back: Back<Deed, N>,
) -> Back<Deed, N> {
    match back {
        Back::Free(seat) => Back::Free(shop.trim(rt, seat)),
        Back::Held(pending) => Back::Held(shop.trim_pending(rt, pending)),
    }
}
