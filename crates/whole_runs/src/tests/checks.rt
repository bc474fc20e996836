//! Transcripts behind their scenarios: what `check` says of them.
use super::rows::FIRST_FRAME;
use super::starts::{SOFT, with_chip};
use super::{assert_same, comes_to, joined, ran, ran_failing, ran_line, read_row, source_of};
use capture_runner::Status;
use std::alloc::Global;
use std::process::Abort;
use std::sync::Wait;
use std::thread::Threads;

/// Checks this input, where the reads of these numbers fail. It writes just this.
fn checked(
    rt: &(impl Abort + Threads + Wait + Sync),
    alloc: Global,
    input: &[u8],
    read_fails: &[u32],
    (status, wrote): (Status, &str),
) {
    let outcome = ran_failing(rt, alloc, "check", input, (read_fails, &[]));
    comes_to(rt, &outcome, wrote, (status, wrote));
}

const NO_AND_YES: &[(&str, Status, &str)] = &[
    ("transcript 1\nend 0 0 0 0\n", Status::Ok, "yes\n"),
    ("transcript 1\nend 0 0 0 0", Status::Ok, "yes\n"),
    (
        "transcript 1\nend 0 0 0 1\n",
        Status::No,
        "no 2\nexpected end 0 0 0 0\nfound end 0 0 0 1\n",
    ),
    (
        "transcript 1\n",
        Status::No,
        "no 2\nexpected end 0 0 0 0\nfound\n",
    ),
    ("", Status::No, "no 1\nexpected transcript 1\nfound\n"),
    (
        "transcript 1\nend 0 0 0 0\nend 0 0 0 0\n",
        Status::No,
        "no 3\nexpected\nfound end 0 0 0 0\n",
    ),
    (
        "transcript 1\nend 0 0 0 0\n\n",
        Status::No,
        "no 3\nexpected\nfound\n",
    ),
];

fn transcript_is_checked(
    rt: &(impl Abort + Threads + Wait + Sync),
    alloc: Global,
    transcript: &str,
    answer: (Status, &str),
) {
    let input = joined(rt, alloc, &[b"scenario 1\nend\n", transcript.as_bytes()]);
    checked(rt, alloc, &input, &[], answer);
}

/// A line feed more or less, a line too few, one too many, and bytes behind the transcript.
#[test]
fn check_no_and_yes(rt: HostRuntime) {
    for (transcript, status, wrote) in NO_AND_YES {
        transcript_is_checked(&rt, rt.alloc(), transcript, (*status, wrote));
    }
}

/// Checks a scenario and what is told of it.
fn row_is_checked(
    rt: &(impl Abort + Threads + Wait + Sync),
    alloc: Global,
    text: &str,
    answer: (Status, &str),
) {
    let row = read_row(rt, alloc, text);
    let told = row.told.as_bytes();
    let input = joined(rt, alloc, &[row.input.as_bytes(), b"transcript 1\n", told]);
    checked(rt, alloc, &input, &[], answer);
}

/// A line of a chip's share, again in place of the software's.
#[test]
fn first_difference(rt: HostRuntime) {
    let rest =
        "rx 1 02000000000b02000000000a88b50102 => chip 1 at 9 0 copy; tx 1 2 02000000000b02000000000a88b50102
serve => soft 1 at 9; tx 1 2 02000000000b02000000000a88b50102; tx 1 3 02000000000b02000000000a88b50102; ok 6 0
report 1 => ok 7 1
end => end 7 10 1 0
";
    let wrote = "no 9
expected tx 1 3 02000000000b02000000000a88b50102
found tx 1 2 02000000000b02000000000a88b50102
";
    let text = with_chip(&rt, rt.alloc(), 1, rest);
    row_is_checked(&rt, rt.alloc(), text.as_str(), (Status::No, wrote));
}

/// Posts that name a point: two are refused.
#[test]
fn points_and_refusals_in_check(rt: HostRuntime) {
    let text = format!(in rt.alloc();
        "{SOFT}rx 1 02000000000b02000000000a88b50102
hold => held 1 9
post 1 at 5 => refused 7 15
post 1 at 0 => refused 8 15
post 1 at 9 => soft 1 at 9; tx 1 2 02000000000b02000000000a88b50102; tx 1 3 02000000000b02000000000a88b50102; ok 9 1
end => end 9 10 1 0
"
    );
    let answer = (Status::Ok, "yes\n");
    row_is_checked(&rt, rt.alloc(), text.expect(&rt, "memory").as_str(), answer);
}

const DIFFERS: &[u8] = b"scenario 1\nend\ntranscript 2\n";

const BAD: &[u8] = b"scenario 1\nport 1 host soft\nend\n";

const UNENDED: &[u8] = b"scenario 1\nport 1 p1 soft\n";

const FAULT: (Status, &str) = (Status::ReadFault, "read fault\n");

const BAD_AND_FAULTS: &[(&[u8], &[u32], (Status, &str))] = &[
    (DIFFERS, &[2], FAULT),
    (BAD, &[], (Status::BadLine, "bad 2 port\n")),
    (BAD, &[2], (Status::BadLine, "bad 2 port\n")),
    (UNENDED, &[], (Status::BadLine, "bad 3 unended\n")),
    (UNENDED, &[2], FAULT),
];

/// A bad line comes before a fault of reading, and this before a difference; a scenario that only lacks its end may go on.
#[test]
fn bad_lines_and_faults_in_check(rt: HostRuntime) {
    for (input, read_fails, answer) in BAD_AND_FAULTS {
        checked(&rt, rt.alloc(), input, read_fails, *answer);
    }
}

/// What a replay of the scenario writes is what is told of it.
fn replay_is_told(rt: &(impl Abort + Threads + Wait + Sync), alloc: Global, scenario: &[u8]) {
    let transcript = ran(rt, alloc, "replay", scenario).wrote;
    let input = joined(rt, alloc, &[scenario, transcript.as_slice()]);
    checked(rt, alloc, &input, &[], (Status::Ok, "yes\n"));
}

/// Of as many generated frames as there are at most, too.
#[test]
fn what_replay_writes_is_told(rt: HostRuntime) {
    let alloc = rt.alloc();
    let generated = ran(&rt, alloc, "gen 7 100000", b"").wrote;
    replay_is_told(&rt, alloc, generated.as_slice());
    let worked = read_row(&rt, alloc, FIRST_FRAME).input;
    replay_is_told(&rt, alloc, worked.as_bytes());
}

const AT_THE_LIMIT: &[(usize, Status, &str)] = &[
    (268_435_455, Status::No, "no 3\nexpected\nfound\n"),
    (268_435_456, Status::TooLong, "too long\n"),
];

/// A scenario and its transcript, and blank lines behind that, in all so many bytes.
fn with_blank_lines(rt: &impl Abort, alloc: Global, count: usize) -> Vec<u8> {
    let mut input = joined(
        rt,
        alloc,
        &[b"scenario 1\nend\ntranscript 1\nend 0 0 0 0\n"],
    );
    let blank = input.resize(count, b'\n');
    blank.expect(rt, "memory for bytes");
    input
}

/// Scenario and transcript have fewer than 2^28 bytes together. Of as many or more nothing is compared.
#[test]
fn inputs_of_check_at_the_limit(rt: HostRuntime) {
    for (count, status, wrote) in AT_THE_LIMIT {
        let input = with_blank_lines(&rt, rt.alloc(), *count);
        checked(&rt, rt.alloc(), &input, &[], (*status, wrote));
    }
}

/// The answer can't be written, or not all of it.
#[test]
fn writes_of_check_that_fail(rt: HostRuntime) {
    let input = b"scenario 1\nend\ntranscript 1\nend 0 0 0 0\n";
    for room in [0, 3] {
        let mut source = source_of(&rt, rt.alloc(), input, &[]);
        let outcome = ran_line(&rt, rt.alloc(), "check", &mut source, room);
        assert_same(&rt, &outcome.status, &Status::WriteFault, "check");
    }
}
