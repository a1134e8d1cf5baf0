//! Exchangers: two threads exchange their items (`Exchanger`).
//!
//! The shortest way is `run_exchanger`, which starts threads at an exchanger that it makes, each with a handle.
//! From `crates/examples/src/exchanger.rt`:
//!
//!     impl ExchangeTask<u64> for Swap {
//!         type Output = Result<u64, Unmet<u64>>;
//!
//!         fn run<X: ExchangerHandle<u64>>(&self, exchanger: &mut X) -> Self::Output {
//!             exchanger.exchange_for(exchanger.number(), 60_000) // milliseconds
//!         }
//!     }
//!
//! `Exchanger` is for a program that holds its seats itself.
//!
//! Two seats exchange items in a slot of an `Arena`, by single steps (`offer`, `collect`, `withdraw`) or by a call that
//! waits (`exchange`). From `crates/examples/src/one_thread/swapped.rt`, whose `offer` and `end` print what the steps
//! return:
//!
//!     let (arena, mut seats) = Arena::<Parcel>::new(alloc, 1, 2)?; // one slot, two seats
//!     let zero = offer(rt, &arena, Back::Free(zero), 5)?; // nobody is there: 5 is posted
//!     let one = offer(rt, &arena, Back::Free(one), 6)?; // 6 for 5
//!     let zero = end(rt, &arena, zero)?; // 6 is collected

pub use meet_exchange::{
    Arena, Back, CloseFault, Closed, Exchanged, Gathered, LeftIn, Offered, Part, Pending, Round,
    RoundEnd, Seat, SlotDeed, Standing, TakenBack,
};
pub use meet_exchanger::{
    ExchangeTask, Exchanger, ExchangerFault, ExchangerHandle, Finished, Unmet, run_exchanger,
};
pub use meet_tickets::{Marked, Refusal, SeatNo};
