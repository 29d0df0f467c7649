//! Texts in their bytes, and each way in which a text is bad.

use graph_model::{List, Refused, Uid};
use plan_model::{At, Home, LineAt, Plan, Units, Wave};
use plan_text::{PlanFault, print, read};
use std::alloc::{AllocError, Global};
use std::fmt::Write;
use std::test::Fail;

/// A graph of four nodes: 1 leads through 3 and through 4 into 2.
const FOUR: &str =
    "plan 1\nlatency 5\npath 1 3 2\nat 1 0\nat 2 5\nat 3 0\nat 4 5\nline 0 0\nline 1 0\nline 2 5\n\
line 3 0\nline 4 0\nline 5 0\ntotal 5\narc 1 3 2\narc 3 2 2\narc 4 2 2\nbound 5\nwave 1\nwave 3\nwave 4\nwave 2\n\
home 1 0 0\nhome 3 0 1\nhome 4 0 0\nchannels 2\npeak 1\nend\n";

/// An input that is joined to an output.
const JOINED: &str =
    "plan 1\nlatency 0\npath 1 2\nat 1 0\nat 2 0\nline 0 0\ntotal 0\narc 1 2 1\nbound 0\nwave 1\n\
wave 2\nhome 1 0 0\nchannels 1\npeak 0\nend\n";

/// Two nodes without connections.
const APART: &str =
    "plan 1\nlatency 0\npath 2\nat 2 0\ntotal 0\nbound 0\nwave 2\nchannels 0\npeak 0\nend\n";

fn at(uid: u32, at: u64) -> At {
    At { uid: Uid(uid), at }
}

fn line(connection: u32, delay: u64) -> LineAt {
    LineAt { connection, delay }
}

fn arc(tail: u32, head: u32, units: u64) -> Units {
    Units { tail, head, units }
}

fn home(uid: u32, channel: u32, buffer: u32) -> Home {
    Home {
        uid: Uid(uid),
        channel,
        buffer,
    }
}

/// The schedule with one node a wave.
fn one_by_one(alloc: Global, nodes: &[Uid]) -> Result<List<Wave>, AllocError> {
    let mut waves = List::new(alloc);
    for node in nodes {
        waves.push(Wave {
            nodes: List::from_slice(alloc, &[*node])?,
        })?;
    }
    Ok(waves)
}

/// The plan of `FOUR`.
fn four(alloc: Global) -> Result<Plan, AllocError> {
    let ats = [at(1, 0), at(2, 5), at(3, 0), at(4, 5)];
    let lines = [
        line(0, 0),
        line(1, 0),
        line(2, 5),
        line(3, 0),
        line(4, 0),
        line(5, 0),
    ];
    let arcs = [arc(1, 3, 2), arc(3, 2, 2), arc(4, 2, 2)];
    let homes = [home(1, 0, 0), home(3, 0, 1), home(4, 0, 0)];
    Ok(Plan {
        latency: 5,
        path: List::from_slice(alloc, &[Uid(1), Uid(3), Uid(2)])?,
        at: List::from_slice(alloc, &ats)?,
        lines: List::from_slice(alloc, &lines)?,
        total: 5,
        arcs: List::from_slice(alloc, &arcs)?,
        bound: 5,
        waves: one_by_one(alloc, &[Uid(1), Uid(3), Uid(4), Uid(2)])?,
        homes: List::from_slice(alloc, &homes)?,
        channels: 2,
        peak: 1,
    })
}

/// The plan, or the first bad line.
fn read_text(alloc: Global, text: &[u8]) -> Result<Result<Plan, u64>, AllocError> {
    match read(alloc, text) {
        Ok(plan) => Ok(Ok(plan)),
        Err(Refused::Fault(PlanFault { line })) => Ok(Err(line)),
        Err(Refused::Memory) => Err(AllocError),
    }
}

#[test]
fn a_plan_is_printed_and_read(rt: HostRuntime) -> Result<(), Fail> {
    let alloc = rt.alloc();
    let plan = four(alloc)?;
    assert_eq!(rt; print(alloc, &plan)?.as_slice(), FOUR.as_bytes());
    assert_eq!(rt; read_text(alloc, FOUR.as_bytes())?, Ok(plan));
    for text in [JOINED, APART] {
        match read_text(alloc, text.as_bytes())? {
            Ok(plan) => assert_eq!(rt; print(alloc, &plan)?.as_slice(), text.as_bytes()),
            Err(line) => assert_eq!(rt; line, 0),
        }
    }
    Ok(())
}

/// The text with the line at that index written so many times.
fn with_line(alloc: Global, text: &str, at: usize, times: u32) -> Result<String, AllocError> {
    let mut changed = String::new(alloc);
    for (index, part) in text.lines().enumerate() {
        for _ in 0..if index == at { times } else { 1 } {
            writeln!(changed, "{part}")?;
        }
    }
    Ok(changed)
}

/// The lines of `FOUR` that stand once, numbered from 1. Left out, it is the bad line's number, and written twice the
/// number after it. Without one of the others, or with it twice, the text is that of another plan.
const ONCE: [u64; 8] = [1, 2, 3, 14, 18, 26, 27, 28];

/// The first bad line, or 0.
fn bad_line(alloc: Global, text: &str) -> Result<u64, AllocError> {
    Ok(match read_text(alloc, text.as_bytes())? {
        Ok(_) => 0,
        Err(line) => line,
    })
}

#[test]
fn every_line_left_out_and_twice(rt: HostRuntime) -> Result<(), Fail> {
    let alloc = rt.alloc();
    for index in 0..28 {
        let line = index as u64 + 1;
        let (left_out, twice) = if ONCE.contains(&line) {
            (line, line + 1)
        } else {
            (0, 0)
        };
        let text = with_line(alloc, FOUR, index, 0)?;
        assert_eq!(rt; bad_line(alloc, text.as_str())?, left_out);
        let text = with_line(alloc, FOUR, index, 2)?;
        assert_eq!(rt; bad_line(alloc, text.as_str())?, twice);
    }
    Ok(())
}

#[test]
fn bytes_that_are_no_text(rt: HostRuntime) -> Result<(), Fail> {
    let alloc = rt.alloc();
    let rows: [(&[u8], u64); 20] = [
        (b"", 1),
        (b"\n", 1),
        (b"plan 1", 1),
        (b"plan 01\n", 1),
        (b"plan 2\n", 1),
        (b"plan  1\n", 1),
        (b"plan 1 \n", 1),
        (b" plan 1\n", 1),
        (b"plan 1\r\n", 1),
        (b"plan 1\n", 2),
        (b"plan 1\nlatency 00\n", 2),
        (b"plan 1\nlatency +1\n", 2),
        (b"plan 1\nlatency\n", 2),
        (b"plan 1\nlatency 18446744073709551615\n", 3),
        (b"plan 1\nlatency 18446744073709551616\n", 2),
        (b"plan 1\nlatency 99999999999999999999\n", 2),
        (b"plan 1\nlatency 000000000000000000001\n", 2),
        (b"plan 1\nlatency 0\npath\ntotal 0\n", 5),
        (b"plan 1\nlatency 0\npath 4294967295\nat 4294967296 0\n", 4),
        (&[255, 0, 10, 128], 1),
    ];
    for (bytes, line) in rows {
        match read_text(alloc, bytes)? {
            Ok(_) => assert_eq!(rt; line, 0),
            Err(found) => assert_eq!(rt; found, line),
        }
    }
    let long = format!(in alloc; "{APART}x")?;
    assert_eq!(rt; bad_line(alloc, long.as_str())?, 11);
    Ok(())
}

#[test]
fn a_fault_tells_its_line(rt: HostRuntime) -> Result<(), Fail> {
    let text = format!(in rt.alloc(); "plan: {}", PlanFault { line: 7 })?;
    assert_eq!(rt; text.as_str(), "plan: line 7");
    Ok(())
}
