//! Lines `capture`, with their sections.
use super::starts::SOFT;
use super::{assert_same, comes_to, ends_in, extend, is_told, joined, ran_failing, read_row};
use capture_runner::Status;
use std::alloc::Global;
use std::process::Abort;
use std::sync::Wait;
use std::thread::Threads;

/// A section header: type, total length, magic, version 1.0, an unknown section length, total length.
pub(super) const HEADER: &[u8] =
    b"\x0a\x0d\x0d\x0a\x1c\x00\x00\x00\x4d\x3c\x2b\x1a\x01\x00\x00\x00\xff\xff\xff\xff\xff\xff\xff\xff\x1c\x00\x00\x00";

/// An Ethernet interface: type, total length, link type 1, reserved, snap length, total length.
pub(super) const INTERFACE: &[u8] =
    b"\x01\x00\x00\x00\x14\x00\x00\x00\x01\x00\x00\x00\x00\x00\x04\x00\x14\x00\x00\x00";

/// A packet by interface 0: type, total length, interface, time, captured and original length 16, the frame, total length.
const PACKET: &[u8] =
    b"\x06\x00\x00\x00\x30\x00\x00\x00\x00\x00\x00\x00\x00\x00\x00\x00\x00\x00\x00\x00\x10\x00\x00\x00\x10\x00\x00\x00\x02\x00\x00\x00\x00\x0b\x02\x00\x00\x00\x00\x0a\x88\xb5\x01\x02\x30\x00\x00\x00";

/// A packet of no bytes by interface 0.
const EMPTY_PACKET: &[u8] =
    b"\x06\x00\x00\x00\x20\x00\x00\x00\x00\x00\x00\x00\x00\x00\x00\x00\x00\x00\x00\x00\x00\x00\x00\x00\x00\x00\x00\x00\x20\x00\x00\x00";

/// A section of a header, an interface and a packet, with one byte changed. Its place counts from the section's first byte.
fn section(rt: &impl Abort, alloc: Global, (at, byte): (usize, u8)) -> Vec<u8> {
    let mut bytes = joined(rt, alloc, &[HEADER, INTERFACE, PACKET]);
    match bytes.get_mut(at) {
        Some(place) => *place = byte,
        None => panic!(rt; "the section isn't so long"),
    }
    bytes
}

/// A changed byte, the length in the line, how many bytes of the section stand there, what follows them, and what is told
/// behind the steps before.
type Capture = (
    (usize, u8),
    &'static str,
    usize,
    &'static str,
    Status,
    &'static str,
);

const SERVE: &str = "serve\nend\n";

const SENT: &str = "soft 1 at 9
tx 1 2 02000000000b02000000000a88b50102
tx 1 3 02000000000b02000000000a88b50102
ok 6 1
end 6 10 1 0
";

const CAPTURES: &[Capture] = &[
    ((0, 0x0a), "96", 96, SERVE, Status::Ok, SENT),
    ((0, 0x0a), "96", 95, "", Status::BadLine, "bad 9 unended\n"),
    (
        (0, 0x0a),
        "95",
        95,
        SERVE,
        Status::BadLine,
        "bad 9 capture 48\n",
    ),
    (
        (56, 1),
        "96",
        96,
        SERVE,
        Status::BadLine,
        "bad 9 capture 48\n",
    ),
    (
        (8, 0x4e),
        "96",
        96,
        SERVE,
        Status::BadLine,
        "bad 9 capture 0\n",
    ),
    (
        (36, 2),
        "96",
        96,
        SERVE,
        Status::BadLine,
        "bad 9 capture 48\n",
    ),
    ((0, 0x0a), "96", 96, "", Status::BadLine, "bad 10 unended\n"),
    ((0, 0x0a), "96", 96, "end", Status::Ok, "end 5 9 0 1\n"),
    (
        (0, 0x0a),
        "96",
        96,
        "port 4 p4 soft\n",
        Status::BadLine,
        "bad 10 place\n",
    ),
    (
        (0, 0x0a),
        "16777217",
        96,
        SERVE,
        Status::BadLine,
        "bad 9 number\n",
    ),
    ((0, 0x0a), "0", 0, "end\n", Status::Ok, "end 4 9 0 0\n"),
    (
        (0, 0x0a),
        "0",
        0,
        "capture 0\nend\n",
        Status::Ok,
        "end 4 9 0 0\n",
    ),
];

/// The scenario with this line and section, and its transcript.
fn capture_is_told(rt: &(impl Abort + Threads + Wait + Sync), alloc: Global, row: &Capture) {
    let (change, length, count, rest, status, told) = *row;
    let before = read_row(rt, alloc, SOFT);
    let line = format!(in alloc; "capture {length}\n").expect(rt, "memory");
    let section = section(rt, alloc, change);
    let (section, _) = section.split_at(count.min(section.len()));
    let pieces = [
        before.input.as_bytes(),
        line.as_bytes(),
        section,
        rest.as_bytes(),
    ];
    let input = joined(rt, alloc, &pieces);
    let told = format!(in alloc; "{}{told}", before.told.as_str()).expect(rt, "memory");
    is_told(rt, alloc, &input, (status, told.as_str()));
}

#[test]
fn captures(rt: HostRuntime) {
    for row in CAPTURES {
        capture_is_told(&rt, rt.alloc(), row);
    }
}

/// A section whose numbers have their highest byte first: a header, three interfaces, a packet by interface 1, and one by
/// interface 2 whose frame holds a line `end`.
const HIGHEST_FIRST: &[&[u8]] = &[
    b"\x0a\x0d\x0d\x0a\x00\x00\x00\x1c\x1a\x2b\x3c\x4d\x00\x01\x00\x00\xff\xff\xff\xff\xff\xff\xff\xff\x00\x00\x00\x1c",
    b"\x00\x00\x00\x01\x00\x00\x00\x14\x00\x01\x00\x00\x00\x04\x00\x00\x00\x00\x00\x14",
    b"\x00\x00\x00\x01\x00\x00\x00\x14\x00\x01\x00\x00\x00\x04\x00\x00\x00\x00\x00\x14",
    b"\x00\x00\x00\x01\x00\x00\x00\x14\x00\x01\x00\x00\x00\x04\x00\x00\x00\x00\x00\x14",
    b"\x00\x00\x00\x06\x00\x00\x00\x30\x00\x00\x00\x01\x00\x00\x00\x00\x00\x00\x00\x00\x00\x00\x00\x10\x00\x00\x00\x10\x02\x00\x00\x00\x00\x0b\x02\x00\x00\x00\x00\x0a\x88\xb5\x01\x02\x00\x00\x00\x30",
    b"\x00\x00\x00\x06\x00\x00\x00\x34\x00\x00\x00\x02\x00\x00\x00\x00\x00\x00\x00\x00\x00\x00\x00\x13\x00\x00\x00\x13\x02\x00\x00\x00\x00\x0a\x02\x00\x00\x00\x00\x0b\x88\xb5\nend\n\x00\x00\x00\x00\x34",
];

/// Ports that are declared in another order than that of their numbers.
const OUT_OF_ORDER: &str = "scenario 1
port 9 p9 soft
port 3 p3 soft
port 60 p60 soft
cmd port up p9 => ok 1 3
cmd port up p3 => ok 2 3
cmd port up p60 => ok 3 3
publish => ok 4 0
";

/// What is told behind the steps before.
const BY_PORTS: &str = "soft 1 at 9
tx 1 9 02000000000b02000000000a88b50102
tx 1 60 02000000000b02000000000a88b50102
ok 7 1
soft 2 at 9
tx 2 3 02000000000a02000000000b88b50a656e640a
tx 2 9 02000000000a02000000000b88b50a656e640a
ok 8 1
end 8 11 2 0
";

/// Interface i is the i-th port that was declared, whatever its number, and no byte of a section is a line.
#[test]
fn interfaces_are_ports_as_declared(rt: HostRuntime) {
    let alloc = rt.alloc();
    let before = read_row(&rt, alloc, OUT_OF_ORDER);
    let section = joined(&rt, alloc, HIGHEST_FIRST);
    let pieces = [
        before.input.as_bytes(),
        b"capture 188\n",
        section.as_slice(),
        b"serve\nserve\nend\n",
    ];
    let input = joined(&rt, alloc, &pieces);
    let told = joined(&rt, alloc, &[before.told.as_bytes(), BY_PORTS.as_bytes()]);
    let told = std::str::from_utf8(&told).expect(&rt, "a text");
    is_told(&rt, alloc, &input, (Status::Ok, told));
}

/// A block of a type of this test's own without a body of use: it is skipped.
const OWN_BLOCK: &[u8] = b"\xfe\xca\x00\x80\x10\x00\x00\x00\x00\x00\x00\x00\x10\x00\x00\x00";

/// Bytes of sections as long as can be: a header, an interface, and packets without bytes.
fn longest_section(rt: &impl Abort, alloc: Global) -> Vec<u8> {
    let mut bytes = Vec::with_capacity(alloc, 1 << 24).expect(rt, "memory for a section");
    extend(rt, &mut bytes, HEADER);
    extend(rt, &mut bytes, INTERFACE);
    for _ in 0..524_286 {
        extend(rt, &mut bytes, EMPTY_PACKET);
    }
    extend(rt, &mut bytes, OWN_BLOCK);
    bytes
}

/// Each of its packets is a step.
#[test]
fn longest_capture(rt: HostRuntime) {
    let alloc = rt.alloc();
    let section = longest_section(&rt, alloc);
    assert_same(&rt, &section.len(), &(1 << 24), "the section");
    let before = b"scenario 1\nport 1 p1 soft\ncapture 16777216\n";
    let input = joined(&rt, alloc, &[before, section.as_slice(), b"end\n"]);
    let told = "unread 524285 short\nunread 524286 short\nend 524286 0 0 0\n";
    ends_in(&rt, alloc, &input, (Status::Ok, told));
}

const CUT_OFF: &[(u32, Status, &str)] = &[
    (2, Status::ReadFault, "transcript 1\nok 1 3\nread fault\n"),
    (4, Status::ReadFault, "transcript 1\nok 1 3\nread fault\n"),
    (5, Status::BadLine, "transcript 1\nok 1 3\nbad 4 unended\n"),
];

/// Reads that fail in a section, and one that finds the end there: the first takes 65,536 bytes, the second as many as the lines
/// had, the third what is left, and the fourth finds the end.
#[test]
fn section_is_cut_off(rt: HostRuntime) {
    let alloc = rt.alloc();
    let section = longest_section(&rt, alloc);
    let (part, _) = section.split_at(section.len().min(100_000));
    let before = b"scenario 1\nport 1 p1 soft\ncmd port up p1\ncapture 100001\n";
    let input = joined(&rt, alloc, &[before, part]);
    for (call, status, wrote) in CUT_OFF {
        let outcome = ran_failing(&rt, alloc, "replay", &input, (&[*call], &[]));
        comes_to(&rt, &outcome, wrote, (*status, wrote));
    }
}

/// Adds a block of a type of this test's own with so many bytes in its body: it is skipped.
fn add_block(rt: &impl Abort, alloc: Global, bytes: &mut Vec<u8>, body: u32) {
    let total = body.saturating_add(12).to_le_bytes();
    let zeros = vec![in alloc; 0u8; body as usize].expect(rt, "memory for a block");
    extend(rt, bytes, b"\xfe\xca\x00\x80");
    extend(rt, bytes, total.as_slice());
    extend(rt, bytes, zeros.as_slice());
    extend(rt, bytes, total.as_slice());
}

/// A line and a section of 2^24 bytes, most of which are skipped.
fn longest_skipped(rt: &impl Abort, alloc: Global) -> Vec<u8> {
    let mut bytes = joined(rt, alloc, &[b"capture 16777216\n", HEADER]);
    for _ in 0..15 {
        add_block(rt, alloc, &mut bytes, (1 << 20) - 12);
    }
    add_block(rt, alloc, &mut bytes, (1 << 20) - 40);
    bytes
}

/// At most 2^28 bytes are taken, of a section too: nobody knows then whether the rest of it comes.
#[test]
fn section_beyond_the_longest_input(rt: HostRuntime) {
    let alloc = rt.alloc();
    let section = longest_skipped(&rt, alloc);
    assert_same(&rt, &section.len(), &((1 << 24) + 17), "the section");
    let mut input = joined(&rt, alloc, &[b"scenario 1\n"]);
    for _ in 0..16 {
        extend(&rt, &mut input, &section);
    }
    extend(&rt, &mut input, b"end\n");
    let told = "transcript 1\ntoo long\n";
    ends_in(&rt, alloc, &input, (Status::TooLong, told));
}
