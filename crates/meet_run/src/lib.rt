//! Texts of a place, in three modules: what all texts have in common (`text`); scripts, one thread's calls and their
//! replies (`script`); and traces, a place's records (`trace`). What a call returns and what a record may be is defined
//! in `meet_history`. The crate knows no threads.
#![tactic(auto)]

pub mod script;
pub mod text;
pub mod trace;

pub use script::run::{run_script, run_script_within};
pub use text::blocks::Blocks;
pub use text::faults::{Report, RunFault, report_of};
pub use text::reading::MOST_READS;
pub use trace::chain::ChapterFault;
pub use trace::chains::{check_chain, check_chain_within};
pub use trace::check::{check_trace, check_trace_within};
pub use trace::erase::{erase_trace, erase_trace_within};
pub use trace::run::{run_trace, run_trace_within, write_based, write_trace};
