//! Drains.

use meet_sync::{Back, DrainedItems, Ledgers, SeatRefused};
use meet_tickets::Deed;

/// A seat, and the items of its drain, where it wasn't refused.
type Drained<N> = (Back<Deed, N>, Option<Vec<u64>>);

/// What came of a drain: the seat, and the items where it wasn't refused.
pub fn drained<N: Ledgers>(
    drained: Result<DrainedItems<u64, N>, SeatRefused<u64, N>>,
) -> Drained<N> {
    match drained {
        Ok(drained) => {
            let DrainedItems { seat, items } = drained;
            (Back::Free(seat), Some(items))
        }
        Err(refused) => {
            let SeatRefused {
                why: _,
                seat,
                item: _,
            } = refused;
            (Back::Free(seat), None)
        }
    }
}
