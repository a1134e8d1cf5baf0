//! How a program says that a run has ended.

use meet_run::{RunFault, report_of};
use meet_tickets::Refusal;
use std::alloc::Global;
use std::process::Abort;
use std::test::Fail;

/// Each refusal by its number, from 1: its name, and the exit status of a run that ends with it.
const REFUSALS: [(Refusal, &str, u8); 18] = [
    (Refusal::Memory, "Memory", 4),
    (Refusal::HistoryFull, "HistoryFull", 4),
    (Refusal::TicketsSpent, "TicketsSpent", 4),
    (Refusal::SeatOpen, "SeatOpen", 4),
    (Refusal::NoSuchSeat, "NoSuchSeat", 4),
    (Refusal::NotOpen, "NotOpen", 4),
    (Refusal::Differs, "Differs", 4),
    (Refusal::SeatMissing, "SeatMissing", 4),
    (Refusal::Contended, "Contended", 4),
    (Refusal::Worn, "Worn", 4),
    (Refusal::BadSizes, "BadSizes", 4),
    (Refusal::PolicyNeedsBuffer, "PolicyNeedsBuffer", 4),
    (Refusal::NoThread, "NoThread", 4),
    (Refusal::BadLine, "BadLine", 3),
    (Refusal::BadTrace, "BadTrace", 3),
    (Refusal::ReadFault, "ReadFault", 5),
    (Refusal::WriteFault, "WriteFault", 5),
    (Refusal::HasBase, "HasBase", 4),
];

/// A run that ends with this fault is reported so; the line but for its end is the fault's text.
fn reports(
    rt: &impl Abort,
    alloc: Global,
    fault: RunFault,
    status: u8,
    text: &str,
) -> Result<(), Fail> {
    let report = report_of(&Err(fault));
    assert_eq!(rt; report.status, status);
    let line = format!(in alloc; "{text}\n")?;
    assert!(rt; report.line.as_slice() == line.as_bytes());
    let told = format!(in alloc; "{fault}")?;
    assert_eq!(rt; told.as_str(), text);
    Ok(())
}

#[test]
fn refusals(rt: HostRuntime) -> Result<(), Fail> {
    let alloc = rt.alloc();
    let mut number = 0u64;
    for (why, name, status) in REFUSALS {
        number = number.wrapping_add(1);
        assert_eq!(rt; why.number(), number);
        assert_eq!(rt; why.name(), name);
        let text = format!(in alloc; "meet: {name}")?;
        reports(
            &rt,
            alloc,
            RunFault { why, line: None },
            status,
            text.as_str(),
        )?;
        let text = format!(in alloc; "meet: line 18446744073709551615: {name}")?;
        let line = Some(18446744073709551615);
        reports(&rt, alloc, RunFault { why, line }, status, text.as_str())?;
    }
    Ok(())
}

#[test]
fn ends_without_a_fault(rt: HostRuntime) {
    for (legal, status) in [(true, 0), (false, 1)] {
        let report = report_of(&Ok(legal));
        assert_eq!(rt; report.status, status);
        assert!(rt; report.line.is_empty());
    }
}
