//! Each call of a source and of a sink fails in turn, until a run ends without it. An unknown station is sent to.
use super::rows::{SHARED, chip_scenario};
use super::{
    Outcome, ROOM, assert_bytes, assert_same, assert_that, comes_to, ran_failing, ran_line,
    source_of,
};
use capture_runner::Status;
use std::alloc::Global;
use std::process::Abort;
use std::sync::Wait;
use std::thread::Threads;

/// A run whose first read fails, and what it writes.
const FIRST_READS: &[(&str, &str)] = &[
    ("replay", "transcript 1\nread fault\n"),
    ("show fdb", "read fault\n"),
    ("live --workers 1", "read fault\n"),
];

/// A run without a read of this number.
const NO_READS: &[(&str, u32)] = &[
    ("replay", 2),
    ("show fdb", 2),
    ("live --workers 1", 2),
    ("gen 8 20", 1),
    ("demo 8 20", 1),
];

/// All of the input comes with the first read.
#[test]
fn each_read_fails(rt: HostRuntime) {
    let alloc = rt.alloc();
    let input = chip_scenario(&rt, alloc, SHARED);
    for (line, wrote) in FIRST_READS {
        let outcome = ran_failing(&rt, alloc, line, input.as_bytes(), (&[1], &[]));
        comes_to(&rt, &outcome, line, (Status::ReadFault, wrote));
    }
    for (line, call) in NO_READS {
        let outcome = ran_failing(&rt, alloc, line, input.as_bytes(), (&[*call], &[]));
        assert_same(&rt, &outcome.status, &Status::Ok, line);
    }
}

/// A run whose write of this number fails, and what it has written by then.
const WRITES: &[(&str, u32, &str)] = &[
    ("replay", 1, ""),
    ("replay", 2, "transcript 1\n"),
    ("show fdb", 1, ""),
    ("live --workers 1", 1, ""),
    ("gen 8 20", 1, ""),
    ("demo 8 20", 1, ""),
];

/// A run without a write of this number.
const NO_WRITES: &[(&str, u32)] = &[
    ("replay", 3),
    ("show fdb", 2),
    ("live --workers 1", 2),
    ("gen 8 20", 2),
    ("demo 8 20", 2),
];

/// The first write of a replay is before its first read. Nothing is written behind a write that fails.
#[test]
fn each_write_fails(rt: HostRuntime) {
    let alloc = rt.alloc();
    let input = chip_scenario(&rt, alloc, SHARED);
    for (line, call, wrote) in WRITES {
        let outcome = ran_failing(&rt, alloc, line, input.as_bytes(), (&[], &[*call]));
        comes_to(&rt, &outcome, line, (Status::WriteFault, wrote));
    }
    for (line, call) in NO_WRITES {
        let outcome = ran_failing(&rt, alloc, line, input.as_bytes(), (&[], &[*call]));
        assert_same(&rt, &outcome.status, &Status::Ok, line);
    }
}

/// More than each of these outputs has.
const MORE: u32 = 1000;

/// Over a sink of so much room.
fn ran_in(
    rt: &(impl Abort + Threads + Wait + Sync),
    alloc: Global,
    line: &str,
    input: &[u8],
    room: u32,
) -> Outcome {
    let mut source = source_of(rt, alloc, input, &[]);
    ran_line(rt, alloc, line, &mut source, room)
}

/// What was taken is the front of the whole output, and the status says whether it is all of it. Whether it is.
fn is_front(rt: &impl Abort, outcome: &Outcome, whole: &[u8], room: u32, line: &str) -> bool {
    let (front, missing) = whole.split_at(whole.len().min(room as usize));
    assert_bytes(rt, outcome.wrote.as_slice(), front, line);
    let status = if missing.is_empty() {
        Status::Ok
    } else {
        Status::WriteFault
    };
    assert_same(rt, &outcome.status, &status, line);
    missing.is_empty()
}

fn rooms_are_too_small(
    rt: &(impl Abort + Threads + Wait + Sync),
    alloc: Global,
    line: &str,
    input: &[u8],
) {
    let whole = ran_in(rt, alloc, line, input, ROOM);
    assert_same(rt, &whole.status, &Status::Ok, line);
    assert_that(rt, whole.wrote.len() < MORE as usize, line);
    for room in 0..MORE {
        let outcome = ran_in(rt, alloc, line, input, room);
        if is_front(rt, &outcome, whole.wrote.as_slice(), room, line) {
            break;
        }
    }
}

/// A sink that takes nothing any more after so many bytes has the first ones of the output.
#[test]
fn each_room_is_too_small(rt: HostRuntime) {
    let alloc = rt.alloc();
    let input = chip_scenario(&rt, alloc, SHARED);
    for line in ["replay", "show fdb", "gen 8 2", "demo 8 20"] {
        rooms_are_too_small(&rt, alloc, line, input.as_bytes());
    }
}
