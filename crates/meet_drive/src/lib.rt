//! A demo run: producers and consumers, each a thread, pass items through one synchronous queue in fair mode. The
//! consumers count what they get, the queue's own log states it, and the outcome is written as text.
#![tactic(auto)]

mod course;
mod history;
mod outcome;
mod progress;
mod takings;
mod text;
mod threads;
mod whole;

pub use outcome::Drive;
pub use progress::{Progress, Silent};
pub use text::{push_drive, run_drive};
pub use whole::{MOST_EACH, MOST_GIVERS, drive, drive_in_chapters, drive_told, drive_within};
