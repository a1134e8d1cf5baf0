//! The texts of pools: scripts and their replies, traces and the check of them, and demo runs.
#![tactic(auto)]

pub mod check;
mod driving;
pub mod next;
pub mod records;
pub mod requests;
pub mod run;
pub mod settings;
pub mod spellings;
pub mod trace;
pub mod wording;

pub use check::{check_pool_trace, check_pool_trace_within};
pub use driving::{push_pool_drive, run_pool_drive};
pub use pool_drive::{MOST_CALLERS, MOST_EACH as MOST_JOBS, MOST_WORKERS, PoolDrive, drive_pool};
pub use run::{run_pool, run_pool_within};
pub use trace::{trace_pool, trace_pool_within, write_pool_trace};
