//! The outcome of a demo run as text.

ghost use Rattle.std.specs.Prelude.{◌≡◌, ◌++◌, OnOk};
ghost use Rattle.meet_drive.specs.Driven.{IsSized};
ghost use Rattle.meet_drive.specs.Text.{drive_text, DriveEnds};

use crate::outcome::Drive;
use crate::progress::Progress;
use crate::whole::drive_told;
use meet_run::RunFault;
use meet_run::text::faults::cut_short;
use meet_run::text::output::write_whole;
use meet_run::text::wording::{push_last_line, push_numbered, push_pair};
use meet_tickets::Refusal;
use std::alloc::{AllocError, Global};
use std::io::Write;
use std::sync::Wait;
use std::thread::Threads;
use std::time::Clock;

/// Appends the outcome of a demo run, four lines: how many items the consumers counted, their sum, how many pairs the
/// log has, and the line at the end of a script.
///
/// # Errors
/// - `AllocError`, if an allocation fails: nothing is stated of what was appended.
#[tactic(auto, unfolding(crate::specs::Text::drive_text))]
pub fn push_drive(out: &mut Vec<u8>, drive: Drive) -> Result<(), AllocError>
    ensures { OnOk result (out.new.items ≡ out.old.items ++ drive_text drive) }
{
    push_pair(out, b"items ", drive.items, b"\nsum ", drive.sum)?;
    push_numbered(out, b"\npairs ", drive.pairs)?;
    out.extend_from_slice(b"\n")?;
    push_last_line(out, drive.records, drive.standing)
}

/// Makes the demo run `drive_told`, writes its outcome, and returns true.
///
/// # Errors
/// Each is a fault in no line.
/// - The errors of `drive`: nothing is written.
/// - Memory, if an allocation fails for the text: nothing is written.
/// - WriteFault, if a write fails or takes no byte: a prefix of the text is written.
///
/// # Example
/// From `crates/meet/src/main.rt`:
///
///     &run_drive(
///         &rt,
///         rt.alloc(),
///         &mut rt.stdout(),
///         givers,
///         each,
///         &Teller { rt: &rt },
///     ),
pub fn run_drive<R, W: Write, P: Progress>(
    rt: &R,
    alloc: Global,
    writer: &mut W,
    givers: u64,
    each: u64,
    progress: &P,
) -> Result<bool, RunFault>
where
    R: Threads + Wait + Clock + Sync,
    requires { IsSized givers each }
    ensures { DriveEnds givers each result (W.contents writer.old) (W.contents writer.new) }
{
    let drive = match drive_told(rt, alloc, givers, each, progress) {
        Ok(drive) => drive,
        Err(why) => return Err(cut_short(why)),
    };
    let mut text = Vec::new(alloc);
    if push_drive(&mut text, drive).is_err() {
        return Err(cut_short(Refusal::Memory));
    }
    match write_whole(writer, text.as_slice()) {
        Ok(()) => Ok(true),
        Err(why) => Err(cut_short(why)),
    }
}
