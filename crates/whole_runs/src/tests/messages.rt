//! Neighbour messages: what `monitor` writes of a run, and the table that `follow` reads of it.
use super::rows::{FIRST_FRAME, MOVED, chip_scenario};
use super::{comes_to, ran_line, read_row, source_of, writes};
use capture_runner::Status;
use std::alloc::Global;
use std::process::Abort;
use std::sync::Wait;
use std::thread::Threads;

/// Those of two static entries, and the end.
const TWO_ENTRIES: &str =
    "nl 300000001c00000000000000000000000700000002000000400000000a00020002000000000a00000600050001000000
nl 300000001c00000001000000000000000700000003000000400000000a00020002000000000b00000600050001000000
end
";

const TWO_ROWS: &str = "02:00:00:00:00:0a port 1 vlan 1 static
02:00:00:00:00:0b port 2 vlan 1 static
end
";

/// The first of them with another type, and with another last byte.
const ABSENT: &str =
    "nl 300000001d00000000000000000000000700000002000000400000000a00020002000000000a00000600050001000000\n";

const OTHER_PADDING: &str =
    "nl 300000001c00000000000000000000000700000002000000400000000a00020002000000000a00000600050001000001\n";

/// Those of an entry of a chip, whose station then moves to a port of software.
const MOVED_TOLD: &str =
    "nl 300000001c00000000000000000000000700000003000000020010000a00020002000000000b00000600050001000000
nl 300000001c00000000000000000000000700000003000000020030000a00020002000000000b00000600050001000000
nl 300000001c00000001000000000000000700000004000000020000000a00020002000000000b00000600050001000000
end
";

/// What `monitor` writes of a scenario, and what `follow` writes of that.
fn is_monitored(
    rt: &(impl Abort + Threads + Wait + Sync),
    alloc: Global,
    scenario: &str,
    told: &str,
    rows: &str,
) {
    let ok = Status::Ok;
    writes(rt, alloc, "monitor", (scenario.as_bytes(), &[]), (ok, told));
    writes(rt, alloc, "follow", (told.as_bytes(), &[]), (ok, rows));
}

#[test]
fn monitor_and_follow(rt: HostRuntime) {
    let alloc = rt.alloc();
    let scenario = read_row(&rt, alloc, FIRST_FRAME).input;
    is_monitored(&rt, alloc, scenario.as_str(), TWO_ENTRIES, TWO_ROWS);
    let row = "02:00:00:00:00:0b port 3 vlan 1 learned\nend\n";
    let moved = chip_scenario(&rt, alloc, MOVED);
    is_monitored(&rt, alloc, moved.as_str(), MOVED_TOLD, row);
}

const BAD_LINES: &[(&str, Status, &str)] = &[
    (ABSENT, Status::BadLine, "bad 1 absent\n"),
    (OTHER_PADDING, Status::BadLine, "bad 1 message\n"),
    ("", Status::BadLine, "bad 1 unended\n"),
    ("# none\n\nnl 30", Status::BadLine, "bad 3 unended\n"),
    ("nl 30\n", Status::BadLine, "bad 1 message\n"),
    ("nl 3\n", Status::BadLine, "bad 1 hex\n"),
    ("nl\n", Status::BadLine, "bad 1 word\n"),
    (" #\n", Status::BadLine, "bad 1 word\n"),
    ("# none\n end", Status::Ok, "end\n"),
    ("end\nnl\n", Status::Ok, "end\n"),
];

/// Follows this input, where the reads of these numbers fail. It writes just this.
fn follows(
    rt: &(impl Abort + Threads + Wait + Sync),
    alloc: Global,
    (input, fails): (&[u8], &[u32]),
    answer: (Status, &str),
) {
    writes(rt, alloc, "follow", (input, fails), answer);
}

#[test]
fn bad_lines_of_messages(rt: HostRuntime) {
    let alloc = rt.alloc();
    for (input, status, wrote) in BAD_LINES {
        follows(&rt, alloc, (input.as_bytes(), &[]), (*status, wrote));
    }
    let long = vec![in alloc; b'#'; 20_001].expect(&rt, "memory");
    let answer = (Status::BadLine, "bad 1 long\n");
    follows(&rt, alloc, (long.as_slice(), &[]), answer);
}

/// A read fails; the sink is full.
#[test]
fn faults_of_follow(rt: HostRuntime) {
    let alloc = rt.alloc();
    let answer = (Status::ReadFault, "read fault\n");
    follows(&rt, alloc, (TWO_ENTRIES.as_bytes(), &[1]), answer);
    let mut source = source_of(&rt, alloc, TWO_ENTRIES.as_bytes(), &[]);
    let outcome = ran_line(&rt, alloc, "follow", &mut source, 20);
    let wrote = "02:00:00:00:00:0a po";
    comes_to(&rt, &outcome, "a full sink", (Status::WriteFault, wrote));
}
