//! Runs by workers: what they write, where they meet, and the last line alone.
use super::rows::FIRST_FRAME;
use super::starts::SOFT;
use super::{
    Outcome, ROOM, assert_bytes, assert_same, assert_that, count_lines, extend, joined, last_line,
    ran, ran_failing, ran_words, read_row, sink_of, source_of, text_of, words_of, writes,
};
use capture_runner::Status;
use port_workers::Gate;
use std::alloc::Global;
use std::process::Abort;
use std::sync::Wait;
use std::sync::atomic::{AtomicU64, Ordering};
use std::thread::Threads;

/// A frame by each of two ports.
const TWO_FRAMES: &[u8] = b"rx 1 02000000000b02000000000a88b50102
rx 2 02000000000a02000000000b88b50102
";

/// How often a worker looks for the others at most.
const LOOKS: u64 = 4_294_967_296;

/// The gate of so many workers. Each looks at its frame whether all have come.
#[derive(Drop)]
struct Meeting {
    workers: u64,
    here: AtomicU64,
    met: AtomicU64,
}

impl Gate for Meeting {
    fn held(&self, _id: u32) {
        self.here.fetch_add(1, Ordering::SeqCst);
        for _ in 0..LOOKS {
            if self.here.load(Ordering::SeqCst) >= self.workers {
                self.met.fetch_add(1, Ordering::SeqCst);
                return;
            }
        }
    }
}

/// Runs this line of words well. `check` says yes to what it writes.
pub(super) fn live_is_checked(
    rt: &(impl Abort + Threads + Wait + Sync),
    alloc: Global,
    line: &str,
    input: &[u8],
) -> Outcome {
    let outcome = ran(rt, alloc, line, input);
    assert_same(rt, &outcome.status, &Status::Ok, line);
    let checked = ran(rt, alloc, "check", outcome.wrote.as_slice());
    assert_bytes(rt, checked.wrote.as_slice(), b"yes\n", line);
    outcome
}

/// Three ports of software, and the two frames so many times.
fn frames(rt: &impl Abort, alloc: Global, times: usize) -> Vec<u8> {
    let start = read_row(rt, alloc, SOFT).input;
    let mut input = joined(rt, alloc, &[start.as_bytes()]);
    for _ in 0..times {
        extend(rt, &mut input, TWO_FRAMES);
    }
    extend(rt, &mut input, b"end\n");
    input
}

/// Runs this line of words with this gate.
fn ran_at(
    rt: &(impl Abort + Threads + Wait + Sync),
    alloc: Global,
    line: &str,
    input: &[u8],
    gate: &(impl Gate + Sync),
) -> Outcome {
    let words = words_of(rt, alloc, line);
    let mut source = source_of(rt, alloc, input, &[]);
    let mut sink = sink_of(rt, alloc, ROOM, &[]);
    ran_words(rt, alloc, &words, &mut source, &mut sink, gate)
}

/// Of so many workers each comes to the gate before any leaves it, and so many frames are held before the first is posted.
fn meet(
    rt: &(impl Abort + Threads + Wait + Sync),
    alloc: Global,
    (line, workers): (&str, u64),
    input: &[u8],
    held: usize,
) {
    let gate = Meeting {
        workers,
        here: AtomicU64::new(0),
        met: AtomicU64::new(0),
    };
    let outcome = ran_at(rt, alloc, line, input, &gate);
    assert_same(rt, &outcome.status, &Status::Ok, line);
    assert_same(rt, &gate.met.load(Ordering::SeqCst), &(held as u64), line);
    let text = text_of(rt, &outcome);
    let (before, _) = text.split_once("\npost ").expect(rt, "a post");
    assert_same(rt, &count_lines(before, "hold"), &held, line);
}

/// A line of words, how many workers it asks for, how many times two frames are given, and how many that are.
const MEETINGS: &[(&str, u64, usize, usize)] = &[
    ("live --workers 2", 2, 1, 2),
    ("live --workers 3", 3, 2, 4),
    ("live --workers 16", 16, 8, 16),
];

#[test]
fn as_many_workers_meet_at_the_gate(rt: HostRuntime) {
    for (line, workers, times, held) in MEETINGS {
        let input = frames(&rt, rt.alloc(), *times);
        meet(&rt, rt.alloc(), (line, *workers), &input, *held);
    }
}

/// How each of them begins, and what stands behind the scenario.
const BEGINS: &str =
    "scenario 1\nbridge 02:00:00:00:00:01\nport 1 p1 soft\nport 2 p2 soft\ncmd port up p1\n";

const TELLS: &str = "\nend\ntranscript 1\nok 1 3\nok 2 3\n";

fn first_frame_by_workers(
    rt: &(impl Abort + Threads + Wait + Sync),
    alloc: Global,
    line: &str,
    input: &str,
) {
    let outcome = ran(rt, alloc, line, input.as_bytes());
    assert_same(rt, &outcome.status, &Status::Ok, line);
    let text = text_of(rt, &outcome);
    let last = last_line(rt, text);
    assert_that(rt, last.starts_with("end "), last);
    assert_that(rt, last.ends_with(" 8 0 0"), last);
    assert_that(rt, text.starts_with(BEGINS), text);
    assert_that(rt, text.contains(TELLS), text);
}

/// The steps' number is the workers' own; the changes are the scenario's, and nothing is pending or waits.
#[test]
fn one_worker_ends_as_one_runs_alone(rt: HostRuntime) {
    let alloc = rt.alloc();
    let scenario = read_row(&rt, alloc, FIRST_FRAME).input;
    first_frame_by_workers(&rt, alloc, "live --workers 1", scenario.as_str());
    first_frame_by_workers(&rt, alloc, "live --workers 16", scenario.as_str());
}

/// The edition, the bridge's address, ports and names are written as they were declared.
#[test]
fn a_scenario_without_frames_is_written_whole(rt: HostRuntime) {
    let input =
        "scenario 2\nbridge 02:00:00:00:00:fe\nport 254 p-1 soft\nport 2 c.2 chip 4\ncmd stp priority 0\nend";
    let wrote = "scenario 2
bridge 02:00:00:00:00:fe
port 254 p-1 soft
port 2 c.2 chip 4
cmd stp priority 0
publish
end
transcript 1
ok 1 0
ok 2 0
end 2 0 0 0
";
    let answer = (Status::Ok, wrote);
    let line = "live --workers 3";
    writes(&rt, rt.alloc(), line, (input.as_bytes(), &[]), answer);
}

/// Runs two workers over an input, whose reads of these numbers fail. They write the last line alone.
fn ends_alone(
    rt: &(impl Abort + Threads + Wait + Sync),
    alloc: Global,
    (input, fails): (&[u8], &[u32]),
    answer: (Status, &str),
) {
    writes(rt, alloc, "live --workers 2", (input, fails), answer);
}

const BAD_SCENARIOS: &[(&str, &str)] = &[
    ("", "bad 1 unended\n"),
    (
        "scenario 1\nport 1 p1 soft\ncmd port up p1\nrx 1 0200",
        "bad 4 unended\n",
    ),
    ("scenario 1\nport 1 p1 soft\nrx 2 00\nend\n", "bad 3 port\n"),
    ("scenario 1\npost 1 at 2\nend\n", "bad 2 place\n"),
    (
        "scenario 1\ncapture 4\n\x00\x00\x00\x00end\n",
        "bad 2 capture 0\n",
    ),
];

#[test]
fn bad_scenarios_are_told_alone(rt: HostRuntime) {
    for (input, wrote) in BAD_SCENARIOS {
        let answer = (Status::BadLine, *wrote);
        ends_alone(&rt, rt.alloc(), (input.as_bytes(), &[]), answer);
    }
}

const FAILING_READS: &[(&str, u32, Status, &str)] = &[
    ("scenario 1\nend\n", 1, Status::ReadFault, "read fault\n"),
    ("scenario 1\nend", 2, Status::ReadFault, "read fault\n"),
    ("scenario 1\nx\n", 2, Status::BadLine, "bad 2 word\n"),
];

/// A read that fails behind the end of the scenario isn't told, and neither is one behind a bad line.
#[test]
fn reads_that_fail(rt: HostRuntime) {
    let alloc = rt.alloc();
    for (input, call, status, wrote) in FAILING_READS {
        ends_alone(&rt, alloc, (input.as_bytes(), &[*call]), (*status, wrote));
    }
    let input = b"scenario 1\nend\n";
    let outcome = ran_failing(&rt, alloc, "live --workers 2", input, (&[2], &[]));
    assert_same(&rt, &outcome.status, &Status::Ok, "a read behind the end");
}

const AT_THE_LIMIT: &[(usize, &str, usize, Status)] = &[
    (4_194_289, "end\n", 4_194_304, Status::Ok),
    (4_194_290, "end", 4_194_304, Status::TooLong),
    (4_194_291, "#\n", 4_194_304, Status::TooLong),
    (4_194_289, "end", 4_194_303, Status::Ok),
    (4_194_290, "#\n", 4_194_303, Status::BadLine),
];

/// A scenario with so many blank lines before its last one.
fn with_blank_lines(rt: &impl Abort, alloc: Global, blank: usize, last: &str) -> Vec<u8> {
    let lines = vec![in alloc; b'\n'; blank].expect(rt, "memory for lines");
    joined(rt, alloc, &[b"scenario 1\n", &lines, last.as_bytes()])
}

/// 2^22 bytes without an end are too many, and so are those whose end lacks its line feed.
#[test]
fn inputs_at_the_limit(rt: HostRuntime) {
    for (blank, last, length, status) in AT_THE_LIMIT {
        let input = with_blank_lines(&rt, rt.alloc(), *blank, last);
        assert_same(&rt, &input.len(), length, last);
        let outcome = ran(&rt, rt.alloc(), "live --workers 2", &input);
        assert_same(&rt, &outcome.status, status, last);
    }
}
