//! Texts of some 70,000 bytes and more: each is read to its end.

use meet_run::{check_chain, check_trace, erase_trace, run_script, run_trace};
use std::alloc::Global;
use std::test::Fail;

/// How many calls there are.
const CALLS: u64 = 10_000;

/// What is found of their trace.
const FOUND: &[u8] = b"legal 10000 waiting 0 uncollected 0 kept 0\n";

/// A script of calls that find nobody, all that is replied to it, and its trace.
#[derive(Drop)]
struct Texts {
    script: Vec<u8>,
    replies: Vec<u8>,
    trace: Vec<u8>,
}

impl Texts {
    fn new(alloc: Global) -> Result<Texts, Fail> {
        let mut script = Vec::new(alloc);
        let mut replies = Vec::new(alloc);
        let mut trace = Vec::new(alloc);
        script.extend_from_slice(b"fair\n")?;
        trace.extend_from_slice(b"trace 1 fair\n")?;
        for number in 1..=CALLS {
            script.extend_from_slice(b"0 poll\n")?;
            replies.extend_from_slice(format!(in alloc;
                "{number} 0 t{number} none\n"
            )?.as_bytes())?;
            trace.extend_from_slice(format!(in alloc; "0 {number} take-fails\n")?.as_bytes())?;
        }
        replies.extend_from_slice(FOUND)?;
        Ok(Texts {
            script,
            replies,
            trace,
        })
    }
}

#[test]
fn a_large_script_is_run(rt: HostRuntime) -> Result<(), Fail> {
    let alloc = rt.alloc();
    let texts = Texts::new(alloc)?;
    let mut reader = texts.script.as_slice();
    let mut written = Vec::new(alloc);
    assert!(rt; run_script(alloc, &mut reader, &mut written) == Ok(true));
    assert!(rt; written == texts.replies);
    Ok(())
}

#[test]
fn a_large_script_is_traced(rt: HostRuntime) -> Result<(), Fail> {
    let alloc = rt.alloc();
    let texts = Texts::new(alloc)?;
    let mut reader = texts.script.as_slice();
    let mut written = Vec::new(alloc);
    assert!(rt; run_trace(alloc, &mut reader, &mut written) == Ok(true));
    assert!(rt; written == texts.trace);
    Ok(())
}

#[test]
fn a_large_trace_is_checked(rt: HostRuntime) -> Result<(), Fail> {
    let alloc = rt.alloc();
    let texts = Texts::new(alloc)?;
    let mut reader = texts.trace.as_slice();
    let mut written = Vec::new(alloc);
    assert!(rt; check_trace(alloc, &mut reader, &mut written) == Ok(true));
    assert!(rt; written.as_slice() == FOUND);
    Ok(())
}

#[test]
fn a_large_chain_is_checked(rt: HostRuntime) -> Result<(), Fail> {
    let alloc = rt.alloc();
    let texts = Texts::new(alloc)?;
    let mut reader = texts.trace.as_slice();
    let mut written = Vec::new(alloc);
    assert!(rt; check_chain(alloc, &mut reader, &mut written) == Ok(true));
    assert!(rt; written.as_slice() == FOUND);
    Ok(())
}

/// Nothing is erased of it: no ticket was cut, taken back, or refused at its entry.
#[test]
fn a_large_trace_is_erased(rt: HostRuntime) -> Result<(), Fail> {
    let alloc = rt.alloc();
    let texts = Texts::new(alloc)?;
    let mut reader = texts.trace.as_slice();
    let mut written = Vec::new(alloc);
    assert!(rt; erase_trace(alloc, &mut reader, &mut written) == Ok(true));
    assert!(rt; written == texts.trace);
    Ok(())
}
