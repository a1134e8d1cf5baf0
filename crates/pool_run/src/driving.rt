//! A demo run of a pool, and its outcome as text.

ghost use Rattle.std.specs.Prelude.{◌≡◌, ◌++◌, OnOk};
ghost use Rattle.pool_drive.specs.Driven.{IsPoolSized};
ghost use Rattle.pool_run.specs.Driving.{pool_drive_text, PoolDriveEnds};

use crate::wording::push_pool_last_line;
use meet_run::RunFault;
use meet_run::text::faults::cut_short;
use meet_run::text::output::write_whole;
use meet_run::text::wording::{push_numbered, push_pair};
use meet_tickets::Refusal;
use pool_drive::{PoolDrive, drive_pool};
use std::alloc::{AllocError, Global};
use std::io::Write;
use std::sync::Wait;
use std::thread::Threads;
use std::time::Clock;

/// Appends the outcome of a demo run, four lines: how many jobs were executed, the sum of what they returned, how many
/// are done by the records, and the line at the end of a script.
///
/// # Errors
/// - `AllocError`, if an allocation fails: nothing is stated of what was appended.
#[tactic(auto, unfolding(crate::specs::Driving::pool_drive_text))]
pub fn push_pool_drive(out: &mut Vec<u8>, drive: PoolDrive) -> Result<(), AllocError>
    ensures { OnOk result (out.new.items ≡ out.old.items ++ pool_drive_text drive) }
{
    push_pair(out, b"jobs ", drive.jobs, b"\nsum ", drive.sum)?;
    push_numbered(out, b"\ndone ", drive.done)?;
    out.extend_from_slice(b"\n")?;
    push_pool_last_line(out, drive.records, drive.counters)
}

/// Makes the demo run `drive_pool`, writes its outcome, and returns true.
///
/// # Errors
/// Each is a fault in no line.
/// - The errors of `drive_pool`: nothing is written.
/// - Memory, if an allocation fails for the text: nothing is written.
/// - WriteFault, if a write fails or takes no byte: a prefix of the text is written.
///
/// # Example
/// From `crates/meet/src/main.rt`:
///
///     &run_pool_drive(&rt, rt.alloc(), &mut rt.stdout(), callers, each, workers),
pub fn run_pool_drive<R, W: Write>(
    rt: &R,
    alloc: Global,
    writer: &mut W,
    callers: u64,
    each: u64,
    workers: u64,
) -> Result<bool, RunFault>
where
    R: Threads + Wait + Clock + Copy + Send + Sync + 'static,
    requires { IsPoolSized callers each workers }
    ensures { PoolDriveEnds callers each workers result (W.contents writer.old) (W.contents writer.new) }
{
    let drive = match drive_pool(rt, alloc, callers, each, workers) {
        Ok(drive) => drive,
        Err(why) => return Err(cut_short(why)),
    };
    let mut text = Vec::new(alloc);
    if push_pool_drive(&mut text, drive).is_err() {
        return Err(cut_short(Refusal::Memory));
    }
    match write_whole(writer, text.as_slice()) {
        Ok(()) => Ok(true),
        Err(why) => Err(cut_short(why)),
    }
}
