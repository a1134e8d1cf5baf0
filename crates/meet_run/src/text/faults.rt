//! How a run fails, and how a program reports it. Nothing here allocates.

ghost use Rattle.std.specs.Prelude.{◌≡◌, ◌+◌, ◌≤◌, ◌++◌, Some, None, length};
ghost use Rattle.arrayvec.specs.ArrayVec.{array_vec_len};
ghost use Rattle.meet_run.specs.Texts.Faults.{fault_status, status_of, line_text, fault_text, fault_line};

use arrayvec::ArrayVec;
use itoa::Buffer;
use meet_tickets::Refusal;
use std::fmt;
use std::fmt::{Display, Formatter, Write};
use thiserror::Error;

/// Why a run ended early.
#[derive(Clone, Copy, PartialEq, Eq, Debug, Error)]
#[error("meet: {}{}", InLine(*.line), .why.name())]
pub struct RunFault {
    /// The reason.
    pub why: Refusal,
    /// The line of its text, from 1, if it was a line's fault.
    pub line: Option<u64>,
}

/// Returns the fault of a run that ends early, outside any line.
pub fn cut_short(why: Refusal) -> RunFault
    ensures { result ≡ record { why = why; line = None } }
{
    RunFault { why, line: None }
}

/// Returns the fault of a text whose line of this number can't be read.
pub fn at_line(why: Refusal, line: u64) -> RunFault
    ensures { result ≡ record { why = why; line = Some line } }
{
    RunFault {
        why,
        line: Some(line),
    }
}

/// The text of a fault's line number.
#[derive(Clone, Copy)]
struct InLine(Option<u64>);

#[tactic(auto, unfolding(crate::specs::Texts::Faults::line_text))]
impl Display for InLine {
    ghost use Rattle.std.specs.Prelude.{Some};
    ghost use Rattle.meet_run.specs.Texts.Faults.{line_text};

    ghost output = { λ fault. Some (line_text fault.0) };

    fn fmt<W: Write>(&self, f: &mut Formatter<W>) -> fmt::Result {
        match self.0 {
            None => Ok(()),
            Some(number) => write!(f, "line {number}: "),
        }
    }
}

/// The most bytes of a line on standard error.
const ROOM: usize = 64;

/// How a program ends.
#[derive(Drop, Debug)]
pub struct Report {
    /// Its exit status.
    pub status: u8,
    /// Its line on standard error, which is empty if it has none.
    pub line: ArrayVec<u8, ROOM>,
}

/// The exit status of a fault.
#[tactic(auto, unfolding(crate::specs::Texts::Faults::fault_status))]
fn status_for(why: Refusal) -> u8
    ensures { result ≡ fault_status why }
{
    match why {
        Refusal::BadLine | Refusal::BadTrace => 3,
        Refusal::ReadFault | Refusal::WriteFault => 5,
        _ => 4,
    }
}

/// Appends a text for which there is room.
fn push_text(line: &mut ArrayVec<u8, ROOM>, text: &[u8])
    requires { array_vec_len line.old + length text.now ≤ ROOM }
    ensures { line.new.items ≡ line.old.items ++ text.now }
{
    let _ = line.try_extend_from_slice(text);
}

/// Appends the number of a fault's line, where it has one.
#[tactic(auto, unfolding(crate::specs::Texts::Faults::line_text))]
fn push_line_number(line: &mut ArrayVec<u8, ROOM>, number: Option<u64>)
    requires { array_vec_len line.old ≤ 6 }
    ensures text { line.new.items ≡ line.old.items ++ line_text number }
    ensures room { array_vec_len line.new ≤ 33 }
{
    if let Some(number) = number {
        push_text(line, b"line ");
        let mut buffer = Buffer::new();
        push_text(line, buffer.format(number).as_bytes());
        push_text(line, b": ");
    }
}

/// A fault's line.
#[tactic(auto, unfolding(crate::specs::Texts::Faults::fault_text))]
fn line_for(fault: RunFault) -> ArrayVec<u8, ROOM>
    ensures { result.items ≡ fault_text fault }
{
    let mut line = ArrayVec::new();
    push_text(&mut line, b"meet: ");
    push_line_number(&mut line, fault.line);
    push_text(&mut line, fault.why.name().as_bytes());
    push_text(&mut line, b"\n");
    line
}

/// Returns how a program ends after this run.
#[tactic(auto, unfolding(crate::specs::Texts::Faults::status_of, crate::specs::Texts::Faults::fault_line))]
pub fn report_of(outcome: &Result<bool, RunFault>) -> Report
    ensures status { result.status ≡ status_of outcome.now }
    ensures line { result.line.items ≡ fault_line outcome.now }
{
    match outcome {
        Ok(legal) => Report {
            status: if *legal { 0 } else { 1 },
            line: ArrayVec::new(),
        },
        Err(fault) => Report {
            status: status_for(fault.why),
            line: line_for(*fault),
        },
    }
}
