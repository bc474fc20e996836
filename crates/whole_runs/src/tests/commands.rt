//! Whole lines of words: what each command writes, and that only `replay` and `show` read.
use super::rows::FIRST_FRAME;
use super::starts::with_chip;
use super::{
    ROOM, assert_bytes, assert_same, assert_that, comes_to, ran, ran_line, read_row, source_of,
    text_of, writes,
};
use capture_runner::Status;
use run_io::sources::Source;
use std::alloc::Global;
use std::process::Abort;
use std::sync::Wait;
use std::thread::Threads;

/// A scenario without steps.
const UNREAD: &[u8] = b"scenario 1\nend\n";

/// Runs a line of words that leaves its input unread. It writes just this.
fn writes_unread(
    rt: &(impl Abort + Threads + Wait + Sync),
    alloc: Global,
    line: &str,
    status: Status,
    wrote: &str,
) {
    let mut source = source_of(rt, alloc, UNREAD, &[]);
    let outcome = ran_line(rt, alloc, line, &mut source, ROOM);
    comes_to(rt, &outcome, line, (status, wrote));
    let mut left = [0u8; 32];
    let count = source.read(&mut left).expect(rt, "no read fails");
    let (left, _) = left.split_at(count);
    assert_bytes(rt, left, UNREAD, line);
}

const TABLES: &[(&str, &str)] = &[
    (
        "show fdb",
        "02:00:00:00:00:0a dev p1 vlan 1 static\n02:00:00:00:00:0b dev p2 vlan 1 static\nend\n",
    ),
    (
        "show vlan",
        "host 1 untagged\np1 1 pvid untagged\np2 1 pvid untagged\nend\n",
    ),
    ("show mdb", "end\n"),
];

/// The tables at the end of the run of a frame to a known station.
#[test]
fn worked_tables(rt: HostRuntime) {
    let alloc = rt.alloc();
    let scenario = read_row(&rt, alloc, FIRST_FRAME).input;
    let input = scenario.as_bytes();
    for (line, wrote) in TABLES {
        writes(&rt, alloc, line, (input, &[]), (Status::Ok, wrote));
    }
}

/// An edition, how a scenario of two ports of a chip beside one of software goes on, and what is written.
const AUDITS: &[(u8, &str, &str)] = &[
    (
        1,
        "cmd fdb add 02:00:00:00:00:0b dev c2 vlan 1 extern
turn 1
publish
rx 3 02000000000a02000000000b88b50102
serve
end
",
        "domain 1
entry 02:00:00:00:00:0b dev f3 vlan 1 learned pending
stale 02:00:00:00:00:0b dev c2 vlan 1 extern
pending 1
end
",
    ),
    (
        1,
        "cmd fdb add 02:00:00:00:00:0b dev c2 vlan 1 extern
turn 1
publish
rx 3 02000000000a02000000000b88b50102
serve
turn 1
end
",
        "domain 1
entry 02:00:00:00:00:0b dev f3 vlan 1 learned offload
pending 0
end
",
    ),
    (
        1,
        "cmd fdb add 02:00:00:00:00:0b dev c2 vlan 1 static
turn 1
cmd fdb del 02:00:00:00:00:0b vlan 1
cmd fdb add 02:00:00:00:00:0b dev c2 vlan 1 static
end
",
        "domain 1
entry 02:00:00:00:00:0b dev c2 vlan 1 static pending
pending 2
end
",
    ),
    (
        2,
        "cmd mdb add 239.1.2.3 dev c2 vlan 1
end
",
        "domain 1
pending 1
end
",
    ),
];

fn is_audited(
    rt: &(impl Abort + Threads + Wait + Sync),
    alloc: Global,
    edition: u8,
    steps: &str,
    wrote: &str,
) {
    let text = with_chip(rt, alloc, edition, steps);
    let input = read_row(rt, alloc, text.as_str()).input;
    let answer = (Status::Ok, wrote);
    writes(rt, alloc, "audit", (input.as_bytes(), &[]), answer);
}

/// A station whose chip has its entry moves to a port of software; the chip is told; an entry is deleted and put again; and in edition
/// 2 a member of a group waits.
#[test]
fn worked_audits(rt: HostRuntime) {
    for (edition, steps, wrote) in AUDITS {
        is_audited(&rt, rt.alloc(), *edition, steps, wrote);
    }
}

const WITHOUT_STEPS: &[(&str, &str)] = &[
    ("replay", "transcript 1\nend 0 0 0 0\n"),
    ("show fdb", "end\n"),
    ("show -- fdb", "end\n"),
    ("show vlan", "host 1 untagged\nend\n"),
    ("show mdb", "end\n"),
    ("audit", "domain 1\npending 0\nend\n"),
];

/// What the host has before the first step, and words behind `--`.
#[test]
fn scenario_without_steps(rt: HostRuntime) {
    for (line, wrote) in WITHOUT_STEPS {
        writes(&rt, rt.alloc(), line, (UNREAD, &[]), (Status::Ok, wrote));
    }
}

const OTHER_WORDS: &[&str] = &[
    "",
    "help",
    "help show",
    "--help",
    "-h",
    "-V",
    "--version",
    "gen -h",
    "rep",
    "replay x",
    "replay replay",
    "check x",
    "checks",
    "show",
    "show ports",
    "show fdb vlan",
    "gen",
    "gen 7",
    "gen 7 20 1",
    "gen 07 1",
    "gen +7 1",
    "gen 0 100001",
    "gen 18446744073709551616 1",
    "demo 7",
    "demo 0 100001",
    "demo 1 -1",
    "audit 1",
    "querier",
    "querier 10.0.0.9",
    "querier 0.0.0.0 fe80:0000:0000:0000:0000:0000:0000:0009",
    "querier 224.0.0.1 fe80:0000:0000:0000:0000:0000:0000:0009",
    "querier 10.0.0.09 fe80:0000:0000:0000:0000:0000:0000:0009",
    "querier 10.0.0.9 fe80::9",
    "querier 10.0.0.9 fe7f:0000:0000:0000:0000:0000:0000:0009",
    "querier 10.0.0.9 fec0:0000:0000:0000:0000:0000:0000:0009",
    "live",
    "live 2",
    "live --workers",
    "live --workers 0",
    "live --workers 17",
    "live --workers 02",
    "live --workers +2",
    "live --workers 2 3",
];

#[test]
fn words_outside_the_grammar(rt: HostRuntime) {
    for line in OTHER_WORDS {
        writes_unread(&rt, rt.alloc(), line, Status::Usage, "usage\n");
    }
}

const SUMMARIES: &[(&str, &str)] = &[
    (
        "demo 0 0",
        "demo frames 0 chip 0 soft 0 tx 0 overrun 0 changes 18 pending 0\n",
    ),
    (
        "demo 0 1",
        "demo frames 1 chip 0 soft 1 tx 5 overrun 0 changes 19 pending 1\n",
    ),
];

#[test]
fn worked_summaries(rt: HostRuntime) {
    for (line, wrote) in SUMMARIES {
        writes_unread(&rt, rt.alloc(), line, Status::Ok, wrote);
    }
}

/// How each generated scenario begins.
const OPENING: &str = "scenario 1
port 1 g1 chip 1
port 2 g2 chip 1
port 3 g3 chip 1
port 4 g4 chip 1
port 5 g5 soft
port 6 g6 soft
cmd port up g1
cmd port up g2
cmd port up g3
cmd port up g4
cmd port up g5
cmd port up g6
publish
";

/// What follows in that of `gen 7 20`, as another program in another language wrote it.
const TWENTY_FRAMES: &str = "rx 3 02000000001402000000001288b50000
serve
rx 6 02000000001202000000001788b50000
serve
rx 4 02000000001702000000001588b50000
serve
report 1
rx 6 02000000001202000000001288b50000
serve
rx 2 02000000001402000000001488b50000
serve
turn 1
rx 6 02000000001302000000001588b50000
serve
report 1
rx 5 02000000001202000000001688b50000
serve
publish
rx 1 02000000001302000000001688b50000
serve
rx 2 02000000001202000000001788b50000
serve
report 1
rx 5 02000000001102000000001388b50000
serve
turn 1
rx 2 02000000001402000000001388b50000
serve
rx 4 02000000001002000000001088b50000
serve
report 1
rx 3 02000000001502000000001588b50000
serve
rx 3 ffffffffffff02000000001588b50000
serve
publish
rx 4 02000000001502000000001788b50000
serve
report 1
turn 1
rx 5 02000000001202000000001588b50000
serve
rx 4 02000000001302000000001788b50000
serve
rx 4 02000000001302000000001088b50000
serve
report 1
rx 1 02000000001702000000001288b50000
serve
rx 6 02000000001302000000001788b50000
serve
turn 1
end
";

const GENERATED: &[(&str, &str)] = &[
    ("gen 0 0", "end\n"),
    ("gen 18446744073709551615 0", "end\n"),
    (
        "gen 0 1",
        "rx 6 02000000001202000000001788b50000\nserve\nend\n",
    ),
    ("gen 7 20", TWENTY_FRAMES),
];

fn is_generated(rt: &(impl Abort + Threads + Wait + Sync), alloc: Global, line: &str, rest: &str) {
    let wrote = format!(in alloc; "{OPENING}{rest}").expect(rt, "memory");
    writes_unread(rt, alloc, line, Status::Ok, wrote.as_str());
}

#[test]
fn generated_scenarios(rt: HostRuntime) {
    for (line, rest) in GENERATED {
        is_generated(&rt, rt.alloc(), line, rest);
    }
}

/// The moment behind the 64th frame, as that other program wrote it.
#[test]
fn generated_moment(rt: HostRuntime) {
    let outcome = ran(&rt, rt.alloc(), "gen 7 64", b"");
    assert_same(&rt, &outcome.status, &Status::Ok, "gen");
    let end = b"rx 1 02000000001702000000001688b50000\nserve\nnow 64000\nend\n";
    assert_that(&rt, outcome.wrote.ends_with(end), "the moment");
}

const BAD: &[u8] = b"scenario 1\nport 1 p1 soft\ncmd port up p1\nbogus\nend\n";

const CUT: &[u8] = b"scenario 1\nport 1 p1 soft\ncmd port up p1\nen";

const STOPS: &[(&[u8], u32, Status, &str)] = &[
    (BAD, 9, Status::BadLine, "bad 4 word\n"),
    (CUT, 9, Status::BadLine, "bad 4 unended\n"),
    (b"", 9, Status::BadLine, "bad 1 unended\n"),
    (BAD, 1, Status::ReadFault, "read fault\n"),
    (CUT, 2, Status::ReadFault, "read fault\n"),
];

fn stops(rt: &(impl Abort + Threads + Wait + Sync), alloc: Global, line: &str) {
    for (input, call, status, wrote) in STOPS {
        writes(rt, alloc, line, (input, &[*call]), (*status, wrote));
    }
}

/// A table is written at the end alone: a bad line or a read that fails behind a step leaves just that line.
#[test]
fn show_stops(rt: HostRuntime) {
    for line in ["show fdb", "show vlan", "show mdb"] {
        stops(&rt, rt.alloc(), line);
    }
}

const FULL: &[(&str, &str)] = &[
    ("replay", "transcript 1\nok 1 3\n"),
    ("show fdb", "02:00:00:00:00:0a de"),
    ("gen 7 20", "scenario 1\nport 1 g1"),
    ("demo 7 20", "demo frames 20 chip "),
    ("live --workers 1", "scenario 1\nbridge 02"),
];

/// Of each output the first 20 bytes are taken.
#[test]
fn sink_is_full(rt: HostRuntime) {
    let alloc = rt.alloc();
    let scenario = read_row(&rt, alloc, FIRST_FRAME).input;
    for (line, wrote) in FULL {
        let mut source = source_of(&rt, alloc, scenario.as_bytes(), &[]);
        let outcome = ran_line(&rt, alloc, line, &mut source, 20);
        comes_to(&rt, &outcome, line, (Status::WriteFault, wrote));
    }
}

/// How many lines begin with this word.
fn lines_with(text: &str, word: &str) -> usize {
    text.split('\n')
        .filter(|line| line.split(' ').next() == Some(word))
        .count()
}

/// The changes and the pending updates that a transcript's last line tells.
fn counts_of<'a>(rt: &impl Abort, transcript: &'a str) -> (&'a str, &'a str) {
    let (_, end) = transcript.split_once("\nend ").expect(rt, "a line `end`");
    let mut numbers = end.split(' ').skip(1);
    let changes = numbers.next().expect(rt, "a count of changes");
    let pending = numbers.next().expect(rt, "a count of pending updates");
    (changes, pending)
}

/// The line of `demo` that belongs to a transcript.
fn summary_of(rt: &impl Abort, alloc: Global, frames: u32, transcript: &str) -> String {
    let (changes, pending) = counts_of(rt, transcript);
    let chip = lines_with(transcript, "chip");
    let soft = lines_with(transcript, "soft");
    let sent = lines_with(transcript, "tx");
    let overrun = lines_with(transcript, "overrun");
    let line = format!(in alloc;
        "demo frames {frames} chip {chip} soft {soft} tx {sent} overrun {overrun} changes {changes} pending {pending}\n"
    );
    line.expect(rt, "memory")
}

/// What `replay` writes of what `gen` writes by these numbers, as `demo` sums it up.
fn replayed_summary(
    rt: &(impl Abort + Threads + Wait + Sync),
    alloc: Global,
    number: u32,
    count: u32,
) -> String {
    let line = format!(in alloc; "gen {number} {count}").expect(rt, "memory");
    let generated = ran(rt, alloc, line.as_str(), b"");
    let replayed = ran(rt, alloc, "replay", generated.wrote.as_slice());
    assert_same(rt, &replayed.status, &Status::Ok, line.as_str());
    summary_of(rt, alloc, count, text_of(rt, &replayed))
}

fn is_summed_up(rt: &(impl Abort + Threads + Wait + Sync), alloc: Global, number: u32, count: u32) {
    let wanted = replayed_summary(rt, alloc, number, count);
    let line = format!(in alloc; "demo {number} {count}").expect(rt, "memory");
    writes_unread(rt, alloc, line.as_str(), Status::Ok, wanted.as_str());
}

/// What is wanted here comes of the program's own `gen` and `replay`: this ties three commands, and knows no number from outside.
#[test]
fn demo_counts_what_replay_writes(rt: HostRuntime) {
    is_summed_up(&rt, rt.alloc(), 7, 20);
    is_summed_up(&rt, rt.alloc(), 3, 130);
}
