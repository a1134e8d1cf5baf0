//! What a closed queue leaves, and what can be computed from it: records and snapshots (bases), the checker, laws,
//! traces, drawings and counts.
//!
//! - `check` and `Checker` decide whether records are legal. From `crates/meet_wakes_tests/src/chance.rt`:
//!
//!       let standing = match check(
//!           alloc,
//!           Kind { order, bound: None },
//!           &Base::empty(alloc),
//!           records,
//!       ) {
//!
//! - `fate` returns what became of a request, `count_fates` how many requests have each fate, `count_deeds` how many
//!   records have each deed. `delivered` and `reckon` count the items, `erase` leaves out what was withdrawn.
//! - `write_trace` writes records as a trace. `check_trace`, `draw_trace`, `sum_trace` and `explain_trace` read a trace
//!   and write what `meet check`, `meet draw`, `meet sum` and `meet explain` print. From `crates/meet/src/main.rt`:
//!
//!       Task::Draw(style, width) => draw_trace(alloc, reader, writer, *style, *width),
//!       Task::Sum => sum_trace(alloc, reader, writer),
//!
//! - `answers`, `comes_instead` and `may_come` return which records the rules allow next.

pub use meet_draw::{LEAST_WIDTH, MOST_WIDTH, Style, USUAL_WIDTH, Width, draw_trace};
pub use meet_explain::{Attempt, Instead, answers, comes_instead, explain_trace, may_come};
pub use meet_history::{CheckFault, Checker, Standing, Why, check};
pub use meet_laws::{Tally, delivered, erase, fate, reckon};
pub use meet_run::{
    ChapterFault, RunFault, check_chain, check_trace, erase_trace, run_script, run_trace,
    write_based, write_trace,
};
pub use meet_sum::{
    DeedCounts, FateCounts, Sums, count_deeds, count_fates, sum_records, sum_trace,
};
pub use meet_tickets::{
    Base, Cause, Deed, Fate, Kind, Order, Record, Refusal, SeatNo, Side, Ticket,
};
