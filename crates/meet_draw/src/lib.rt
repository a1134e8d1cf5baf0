//! Draws traces as text: a row for each record, a column for each seat, and in it a bar while its ticket waits.
#![tactic(auto)]

mod cells;
mod columns;
mod drawing;
mod laws;
mod picture;
mod pieces;
mod rows;
mod style;

pub use drawing::draw_trace;
pub use laws::{columns_are_true, open_tickets_are_drawn};
pub use style::{LEAST_WIDTH, MOST_WIDTH, Style, USUAL_WIDTH, Width};
