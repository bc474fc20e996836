//! Faults of reading and writing, other words, and the numbers of the answers.
use super::rows::{FIRST_FRAME, row_is_told};
use super::{
    Outcome, ROOM, assert_bytes, assert_same, comes_to, push_word, ran, ran_failing, ran_words,
    read_row, sink_of, source_of,
};
use capture_runner::{Status, end_without_memory};
use port_workers::Open;
use std::alloc::Global;
use std::process::Abort;
use std::sync::Wait;
use std::thread::Threads;

const CUT: &str = "scenario 1
port 1 p1 soft
cmd port up p1 => ok 1 3
rx 1 0200 => bad 4 unended";

const ENDS: &str = "scenario 1
port 1 p1 soft
cmd port up p1 => ok 1 3
rx 1 0200 => unread 1 short
end => end 2 3 0 0
";

#[test]
fn bad_lines_and_faults(rt: HostRuntime) {
    let alloc = rt.alloc();
    row_is_told(&rt, alloc, CUT, Status::BadLine);
    row_is_told(&rt, alloc, ENDS, Status::Ok);
    let first = read_row(&rt, alloc, FIRST_FRAME);
    let input = first.input.as_bytes();
    let read = ran_failing(&rt, alloc, "replay", input, (&[1], &[]));
    let wrote = "transcript 1\nread fault\n";
    comes_to(&rt, &read, "a read", (Status::ReadFault, wrote));
    let write = ran_failing(&rt, alloc, "replay", input, (&[], &[1]));
    comes_to(&rt, &write, "a write", (Status::WriteFault, ""));
}

const SECOND_READS: &[(u32, Status, &str)] = &[
    (2, Status::ReadFault, "transcript 1\nok 1 3\nread fault\n"),
    (3, Status::BadLine, "transcript 1\nok 1 3\nbad 4 unended\n"),
];

/// The first read takes two whole lines and a part of the third. The second one finds the end, or fails.
#[test]
fn second_read_fails(rt: HostRuntime) {
    let input = b"scenario 1\nport 1 p1 soft\ncmd port up p1\nen";
    for (call, status, wrote) in SECOND_READS {
        let outcome = ran_failing(&rt, rt.alloc(), "replay", input, (&[*call], &[]));
        comes_to(&rt, &outcome, wrote, (*status, wrote));
    }
}

const ENDED: &[u8] = b"scenario 1\nport 1 p1 soft\ncmd port up p1\nend\n";

const UNENDED: &[u8] = b"scenario 1\nport 1 p1 soft\ncmd port up p1\n";

const SECOND_WRITES: &[(&[u8], u32, Status, &str)] = &[
    (ENDED, 2, Status::WriteFault, "transcript 1\n"),
    (ENDED, 3, Status::Ok, "transcript 1\nok 1 3\nend 1 3 0 0\n"),
    (UNENDED, 2, Status::WriteFault, "transcript 1\n"),
    (UNENDED, 3, Status::WriteFault, "transcript 1\nok 1 3\n"),
];

/// The first write is before the first read, and the second one before the second read, or of the end.
#[test]
fn second_write_fails(rt: HostRuntime) {
    for (input, call, status, wrote) in SECOND_WRITES {
        let outcome = ran_failing(&rt, rt.alloc(), "replay", input, (&[], &[*call]));
        comes_to(&rt, &outcome, wrote, (*status, wrote));
    }
}

/// Each is one word.
const OTHER_WORDS: &[&str] = &["Replay", "replay now", "replay ", ""];

/// Runs one word, whatever stands in it.
fn ran_word(
    rt: &(impl Abort + Threads + Wait + Sync),
    alloc: Global,
    word: &str,
    input: &[u8],
) -> Outcome {
    let mut words = Vec::new(alloc);
    push_word(rt, alloc, &mut words, word);
    let mut source = source_of(rt, alloc, input, &[]);
    let mut sink = sink_of(rt, alloc, ROOM, &[]);
    ran_words(rt, alloc, &words, &mut source, &mut sink, &Open)
}

#[test]
fn other_words_are_usage(rt: HostRuntime) {
    let alloc = rt.alloc();
    for word in OTHER_WORDS {
        let outcome = ran_word(&rt, alloc, word, b"scenario 1\nend\n");
        comes_to(&rt, &outcome, word, (Status::Usage, "usage\n"));
    }
    let none = ran(&rt, alloc, "", b"");
    comes_to(&rt, &none, "no words", (Status::Usage, "usage\n"));
    let unwritten = ran_failing(&rt, alloc, "now", b"", (&[], &[1]));
    comes_to(&rt, &unwritten, "a write", (Status::WriteFault, ""));
}

#[test]
fn no_memory_for_the_words(rt: HostRuntime) {
    let mut sink = sink_of(&rt, rt.alloc(), 10, &[2]);
    let first = end_without_memory(&mut sink);
    assert_same(&rt, &first, &Status::NoMemory, "the first write");
    assert_bytes(&rt, sink.bytes(), b"no memory\n", "the first write");
    let second = end_without_memory(&mut sink);
    assert_same(&rt, &second, &Status::WriteFault, "the second write");
}

const NUMBERS: &[(Status, u8)] = &[
    (Status::Ok, 0),
    (Status::No, 1),
    (Status::Usage, 2),
    (Status::BadLine, 3),
    (Status::ReadFault, 4),
    (Status::WriteFault, 5),
    (Status::NoMemory, 6),
    (Status::TooLong, 7),
];

#[test]
fn numbers_of_statuses(rt: HostRuntime) {
    for (status, number) in NUMBERS {
        assert_same(&rt, &status.code(), number, "a status");
    }
}
