//! The longest line and the longest input; the most addresses, groups, waiting frames and changes.
use super::starts::{SOFT, with_chip};
use super::{assert_same, ends_in, extend, is_told, joined, push, read_row};
use capture_runner::Status;
use std::alloc::Global;
use std::process::Abort;

/// So many times the byte.
fn bytes_of(rt: &impl Abort, alloc: Global, byte: u8, count: usize) -> Vec<u8> {
    vec![in alloc; byte; count].expect(rt, "memory for bytes")
}

fn push_times(rt: &impl Abort, text: &mut String, more: &str, times: u32) {
    for _ in 0..times {
        push(rt, text, more);
    }
}

fn text_from(rt: &impl Abort, alloc: Global, text: &str) -> String {
    String::from_str(alloc, text).expect(rt, "memory for a text")
}

const LONG_LINES: &[(usize, &str, Status, &str)] = &[
    (20_000, "\nend\n", Status::Ok, "end 0 0 0 0\n"),
    (20_001, "\nend\n", Status::BadLine, "bad 2 long\n"),
    (20_000, "", Status::BadLine, "bad 2 unended\n"),
    (20_001, "", Status::BadLine, "bad 2 long\n"),
];

fn with_line(rt: &impl Abort, alloc: Global, count: usize, rest: &str) -> Vec<u8> {
    let line = bytes_of(rt, alloc, b'#', count);
    joined(rt, alloc, &[b"scenario 1\n", &line, rest.as_bytes()])
}

/// A line has at most 20,000 bytes before its line feed, a comment too.
#[test]
fn longest_line(rt: HostRuntime) {
    for (count, rest, status, told) in LONG_LINES {
        let input = with_line(&rt, rt.alloc(), *count, rest);
        is_told(&rt, rt.alloc(), &input, (*status, told));
    }
}

const MOST: usize = 1 << 28;

const LONG_INPUTS: &[(usize, &str, Status, &str)] = &[
    (MOST, "end\n", Status::Ok, "end 0 0 0 0\n"),
    (MOST, "end", Status::TooLong, "too long\n"),
    (MOST + 1, "end\n", Status::TooLong, "too long\n"),
];

/// A scenario of so many bytes, with comments and blank lines before its last line.
fn long_input(rt: &impl Abort, alloc: Global, count: usize, last: &str) -> Vec<u8> {
    let mut comment = bytes_of(rt, alloc, b'#', 16_383);
    extend(rt, &mut comment, b"\n");
    let mut input = joined(rt, alloc, &[b"scenario 1\n"]);
    for _ in 0..MOST / 16_384 - 1 {
        extend(rt, &mut input, &comment);
    }
    let blank = input.resize(count - last.len().min(count), b'\n');
    blank.expect(rt, "memory for bytes");
    extend(rt, &mut input, last.as_bytes());
    input
}

/// At most 2^28 bytes are taken. Nobody knows then whether the input ends.
#[test]
fn longest_input(rt: HostRuntime) {
    for (count, last, status, told) in LONG_INPUTS {
        let input = long_input(&rt, rt.alloc(), *count, last);
        assert_same(&rt, &input.len(), count, last);
        is_told(&rt, rt.alloc(), &input, (*status, told));
    }
}

const ONE_UP: &str = "scenario 1\nport 1 p1 soft\ncmd port up p1\n";

/// A frame of so many bytes at port 1.
fn push_frame(rt: &impl Abort, input: &mut String, count: u32) {
    push(rt, input, "rx 1 ");
    push_times(rt, input, "00", count);
    push(rt, input, "\n");
}

/// A frame has at most 9,022 bytes.
#[test]
fn longest_frame(rt: HostRuntime) {
    let alloc = rt.alloc();
    let mut input = read_row(&rt, alloc, SOFT).input;
    push_frame(&rt, &mut input, 9022);
    push_frame(&rt, &mut input, 9023);
    push(&rt, &mut input, "end\n");
    let told = "ok 1 3\nok 2 3\nok 3 3\nok 4 0\nunread 2 long\nend 6 9 0 1\n";
    is_told(&rt, alloc, input.as_bytes(), (Status::Ok, told));
}

fn push_address(rt: &impl Abort, input: &mut String, number: u32) {
    let [low, high, ..] = number.to_le_bytes();
    let written = write!(
        input,
        "cmd fdb add 02:00:00:01:{high:02x}:{low:02x} dev p1 vlan 1 static\n"
    );
    written.expect(rt, "memory for a text");
}

/// One address more than there may be.
fn push_addresses(rt: &impl Abort, input: &mut String) {
    for number in 0..16_385u32 {
        push_address(rt, input, number);
    }
}

fn push_group(rt: &impl Abort, input: &mut String, number: u32) {
    let [low, high, ..] = number.to_le_bytes();
    let written = write!(input, "cmd mdb add 239.0.{high}.{low} dev p1 vlan 1\n");
    written.expect(rt, "memory for a text");
}

/// The 16,385th address is refused, an address that is there still moves, and room that was freed is used.
#[test]
fn address_limit(rt: HostRuntime) {
    let alloc = rt.alloc();
    let mut input = text_from(&rt, alloc, ONE_UP);
    push_addresses(&rt, &mut input);
    push(&rt, &mut input, "cmd fdb del 02:00:00:01:00:00 vlan 1\n");
    push(
        &rt,
        &mut input,
        "cmd fdb add 02:00:00:01:40:00 dev p1 vlan 1 static\nend\n",
    );
    let told = "ok 16385 1\nrefused 16386 6\nok 16387 1\nok 16388 1\nend 16388 16389 16386 0\n";
    ends_in(&rt, alloc, input.as_bytes(), (Status::Ok, told));
}

/// The 16,385th address is refused, and behind as many addresses the 1,025th group.
#[test]
fn address_and_group_limits(rt: HostRuntime) {
    let alloc = rt.alloc();
    let mut input = read_row(&rt, alloc, SOFT).input;
    push_addresses(&rt, &mut input);
    for number in 0..1025u32 {
        push_group(&rt, &mut input, number);
    }
    push(
        &rt,
        &mut input,
        "cmd mdb add 239.0.3.255 dev host vlan 1\nend\n",
    );
    let told = "ok 17413 1\nrefused 17414 7\nok 17415 1\nend 17415 17418 16384 0\n";
    ends_in(&rt, alloc, input.as_bytes(), (Status::Ok, told));
}

/// A frame to an unknown station.
const FRAME: &str = "rx 1 02000000000b02000000000a88b50102\n";

/// The 4,097th frame that would wait doesn't; once one is served, the next one does.
#[test]
fn overrun(rt: HostRuntime) {
    let alloc = rt.alloc();
    let mut input = text_from(&rt, alloc, ONE_UP);
    push_times(&rt, &mut input, FRAME, 4097);
    push(&rt, &mut input, "serve\n");
    push(&rt, &mut input, FRAME);
    push(&rt, &mut input, "end\n");
    let told = "ok 1 3\noverrun 4097\nsoft 1 at 0\nok 4099 1\nend 4100 4 1 4096\n";
    ends_in(&rt, alloc, input.as_bytes(), (Status::Ok, told));
}

/// At a port of the chip such a frame has still left by the chip's share.
#[test]
fn overrun_at_a_chip_port(rt: HostRuntime) {
    let alloc = rt.alloc();
    let start = with_chip(&rt, alloc, 1, "");
    let mut input = read_row(&rt, alloc, start.as_str()).input;
    push_times(&rt, &mut input, FRAME, 4097);
    push(&rt, &mut input, "end\n");
    let told =
        "chip 4097 at 9 0 copy\ntx 4097 2 02000000000b02000000000a88b50102\noverrun 4097\nend 4101 9 0 4096\n";
    ends_in(&rt, alloc, input.as_bytes(), (Status::Ok, told));
}

/// With 1,048,576 changes an event that makes one is refused, but a frame is sent all the same.
#[test]
fn full_history(rt: HostRuntime) {
    let alloc = rt.alloc();
    let mut input = text_from(&rt, alloc, ONE_UP);
    push(&rt, &mut input, "cmd link p1 flood off\n");
    let on_and_off = "cmd link p1 flood on\ncmd link p1 flood off\n";
    push_times(&rt, &mut input, on_and_off, 524_286);
    push(
        &rt,
        &mut input,
        "cmd link p1 flood off\ncmd link p1 flood on\n",
    );
    push(&rt, &mut input, FRAME);
    push(&rt, &mut input, "serve\nnow 5\nend\n");
    let told =
        "ok 1048574 1\nok 1048575 0\nrefused 1048576 8\nsoft 1 at 0\nrefused 1048578 8\nok 1048579 0\nend 1048579 1048576 0 0\n";
    ends_in(&rt, alloc, input.as_bytes(), (Status::Ok, told));
}

/// Three addresses that the chip learned and no frame hit since; one that software learned, and one that the chip reports.
const BEFORE_THE_LIMIT: &str = "scenario 1
port 1 c1 chip 1
port 2 s2 soft
cmd port up c1
cmd port up s2
cmd fdb add 02:00:00:00:00:0e dev c1 vlan 1 extern
cmd fdb add 02:00:00:00:00:0f dev c1 vlan 1 extern
cmd fdb add 02:00:00:00:00:10 dev c1 vlan 1 extern
turn 1
turn 1
turn 1
sweep 1
rx 2 02000000000e02000000000b88b50102
serve
rx 1 02000000000e02000000000a88b50102
cmd link s2 flood off
";

/// Of the three addresses one is hit, then another one.
const AT_THE_LIMIT: &str = "rx 1 02000000000f02000000000e88b50102
sweep 1
rx 1 02000000000e02000000000f88b50102
sweep 1
report 1
report 1
now 300000
now 299999
end
";

const TOLD_AT_THE_LIMIT: &str = "ok 1048577 1
chip 3 at 1048575 3 drop
refused 1048579 8
chip 4 at 1048575 3 drop
ok 1048581 1
refused 1048582 8
refused 1048583 8
refused 1048584 8
ok 1048585 0
end 1048585 1048576 2 0
";

/// A sweep that would make two changes where there is room for one leaves the hits: after one more, it makes one. With no room a
/// report stays, and so does the last moment.
#[test]
fn full_history_at_a_chip(rt: HostRuntime) {
    let alloc = rt.alloc();
    let mut input = text_from(&rt, alloc, BEFORE_THE_LIMIT);
    let on_and_off = "cmd link s2 flood on\ncmd link s2 flood off\n";
    push_times(&rt, &mut input, on_and_off, 524_282);
    push(&rt, &mut input, AT_THE_LIMIT);
    ends_in(
        &rt,
        alloc,
        input.as_bytes(),
        (Status::Ok, TOLD_AT_THE_LIMIT),
    );
}
