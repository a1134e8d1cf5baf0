//! Chains: traces, one behind another, each on the base that those before it leave.

use meet_run::{RunFault, check_chain};
use meet_tickets::Refusal;
use std::alloc::Global;
use std::process::Abort;
use std::test::Fail;

pub const CHAIN: &[u8] =
    b"trace 1 fair\n0 1 give-waits 5\n1 2 give-waits 6\n2 3 take-meets 5 1\n3 2 interrupt 1\n3 0 interrupt 4\n5 4 give-waits 7\ntrace 2 fair\nbase 6 4\nline 5 4 give 7 waits\npair 0 1 give 3 5\ncut 1 2 give 6\nflag 4\n4 5 entry-interrupted give\n0 1 done\n1 2 withdrawn interrupted\n";

pub const FOUND: &[u8] = b"legal 9 waiting 1 uncollected 0 kept 0\n";

/// What is found of this chain.
fn finds(
    rt: &impl Abort,
    alloc: Global,
    chain: &[u8],
    end: Result<bool, RunFault>,
    text: &[u8],
) -> Result<(), Fail> {
    let mut reader = chain;
    let mut written = Vec::with_capacity(alloc, 128)?;
    assert!(rt; check_chain(alloc, &mut reader, &mut written) == end);
    assert!(rt; written.as_slice() == text);
    Ok(())
}

/// A fault of a line.
fn bad_trace(line: u64) -> Result<bool, RunFault> {
    Err(RunFault {
        why: Refusal::BadTrace,
        line: Some(line),
    })
}

#[test]
fn chapters_that_follow_one_another(rt: HostRuntime) -> Result<(), Fail> {
    let alloc = rt.alloc();
    finds(&rt, alloc, CHAIN, Ok(true), FOUND)?;
    let three: &[u8] =
        b"trace 1 fair\n0 1 give-waits 5\ntrace 2 fair\nbase 1 1\nline 0 1 give 5 waits\n1 2 take-meets 5 1\ntrace 2 fair\nbase 2 2\npair 0 1 give 2 5\n0 1 done";
    finds(
        &rt,
        alloc,
        three,
        Ok(true),
        b"legal 3 waiting 0 uncollected 0 kept 0\n",
    )
}

#[test]
fn a_chapter_that_misses_a_record(rt: HostRuntime) -> Result<(), Fail> {
    let chain: &[u8] =
        b"trace 1 fair\n0 1 give-waits 5\ntrace 2 fair\nbase 2 2\npair 0 1 give 2 5\n0 1 done\n";
    finds(&rt, rt.alloc(), chain, Ok(false), b"chapter 2 OtherBase\n")
}

#[test]
fn a_base_one_record_late(rt: HostRuntime) -> Result<(), Fail> {
    let chain: &[u8] =
        b"trace 1 fair\n0 1 give-waits 5\ntrace 2 fair\nbase 2 2\npair 0 1 give 2 5\n1 2 take-meets 5 1\n0 1 done\n";
    finds(&rt, rt.alloc(), chain, Ok(false), b"chapter 2 OtherBase\n")
}

#[test]
fn another_place(rt: HostRuntime) -> Result<(), Fail> {
    let chain: &[u8] =
        b"trace 1 transfer\n0 1 give-kept 5\ntrace 2 transfer bound 3\nbase 1 1\nline 0 1 give 5 kept\n";
    finds(&rt, rt.alloc(), chain, Ok(false), b"chapter 2 OtherPlace\n")
}

#[test]
fn a_record_that_can_t_stand(rt: HostRuntime) -> Result<(), Fail> {
    let chain: &[u8] =
        b"trace 1 fair\n0 1 give-waits 5\ntrace 2 fair\nbase 1 1\nline 0 1 give 5 waits\n1 2 take-meets 6 1\ntrace 1 unfair\n";
    finds(
        &rt,
        rt.alloc(),
        chain,
        Ok(false),
        b"chapter 2 illegal 2 WrongReply\n",
    )
}

#[test]
fn faults_by_their_line_in_the_text(rt: HostRuntime) -> Result<(), Fail> {
    let alloc = rt.alloc();
    finds(&rt, alloc, b"", bad_trace(1), b"")?;
    finds(&rt, alloc, b"0 1 done\ntrace 1 fair\n", bad_trace(1), b"")?;
    let behind_an_illegal_one: &[u8] =
        b"trace 1 fair\n0 1 done\ntrace 2 fair\nbase 1 1\nline 0 1 give\n";
    finds(&rt, alloc, behind_an_illegal_one, bad_trace(5), b"")?;
    let without_numbers: &[u8] = b"trace 1 fair\ntrace 2 fair\ntrace 1 fair\n";
    finds(&rt, alloc, without_numbers, bad_trace(3), b"")
}
