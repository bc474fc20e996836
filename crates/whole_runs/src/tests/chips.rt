//! Worked runs of both editions, and of several chips: run alone, and by workers.
use super::live::live_is_checked;
use super::rows::{row_is_told, run_is_told, runs_are_told};
use super::starts::with_chip;
use super::{assert_same, assert_that, count_lines, last_line, read_row, text_of};
use capture_runner::Status;
use std::alloc::Global;
use std::process::Abort;
use std::sync::Wait;
use std::thread::Threads;

/// A querier behind the port of software, and a member of a group at the chip's second port, which is published.
const MEMBER: &str =
    "rx 3 01005e00000102000000000e08004500001c000000000102cfd60a000009e00000011164ee9b00000000
serve => soft 1 at 9; tx 1 0 01005e00000102000000000e08004500001c000000000102cfd60a000009e00000011164ee9b00000000; tx 1 1 01005e00000102000000000e08004500001c000000000102cfd60a000009e00000011164ee9b00000000; tx 1 2 01005e00000102000000000e08004500001c000000000102cfd60a000009e00000011164ee9b00000000; ok 6 3
cmd mdb add 239.1.2.3 dev c2 vlan 1 => ok 7 1
publish => ok 8 0
";

/// How that goes on in each edition: in the first the member reaches the chip at once, and in the second by a turn.
const EDITIONS: &[(u8, &str)] = &[
    (
        1,
        "rx 1 01005e01020302000000000c080045000014000000000111bed30a000002ef010203 => chip 2 at 13 0 copy; tx 2 2 01005e01020302000000000c080045000014000000000111bed30a000002ef010203
turn 1 => ok 10 0
turn 1 => refused 11 11
rx 1 01005e01020302000000000c080045000014000000000111bed30a000002ef010203 => chip 3 at 13 1 copy; tx 3 2 01005e01020302000000000c080045000014000000000111bed30a000002ef010203
serve => soft 2 at 13; tx 2 3 01005e01020302000000000c080045000014000000000111bed30a000002ef010203; ok 13 0
end => end 13 13 0 1",
    ),
    (
        2,
        "rx 1 01005e01020302000000000c080045000014000000000111bed30a000002ef010203 => chip 2 at 13 0 copy
turn 1 => ok 10 0
turn 1 => ok 11 0
rx 1 01005e01020302000000000c080045000014000000000111bed30a000002ef010203 => chip 3 at 13 2 copy; tx 3 2 01005e01020302000000000c080045000014000000000111bed30a000002ef010203
serve => soft 2 at 13; tx 2 3 01005e01020302000000000c080045000014000000000111bed30a000002ef010203; ok 13 0
end => end 13 13 0 1",
    ),
];

fn edition_is_told(
    rt: &(impl Abort + Threads + Wait + Sync),
    alloc: Global,
    edition: u8,
    rest: &str,
) {
    let start = with_chip(rt, alloc, edition, MEMBER);
    run_is_told(rt, alloc, start.as_str(), rest);
}

/// Two chips, the first of which applies an address.
const TWO_CHIPS: &str = "scenario 1
port 1 a1 chip 1
port 2 b2 chip 2
port 200 f3 soft
cmd port up a1 => ok 1 3
cmd port up b2 => ok 2 3
cmd port up f3 => ok 3 3
publish => ok 4 0
cmd fdb add 02:00:00:00:00:0b dev b2 vlan 1 static => ok 5 1
publish => ok 6 0
rx 1 02000000000b02000000000a88b50102 => chip 1 at 10 0 copy
serve => soft 1 at 10; tx 1 2 02000000000b02000000000a88b50102; ok 8 0
turn 1 => ok 9 0
rx 1 02000000000b02000000000a88b50102 => chip 2 at 10 1 trap
serve => soft 2 at 10; tx 2 2 02000000000b02000000000a88b50102; ok 11 0
";

/// The second applies it by a turn of its own, or it is pending there. An empty line stands between two runs.
const SECOND_TURNS: &str = "turn 2 => ok 12 0
turn 2 => refused 13 11
end => end 13 10 0 0

end => end 11 10 1 0";

/// Each chip has its own reports and hits. What is pending is a sum over chips.
const FAR_CHIPS: &str = "scenario 1
port 1 a1 chip 1
port 2 d2 chip 4
cmd port up a1 => ok 1 3
cmd port up d2 => ok 2 3
publish => ok 3 0
rx 2 02000000000a02000000000b88b50102 => chip 1 at 6 0 copy
report 1 => refused 5 12
report 4 => ok 6 1
turn 4 => ok 7 0
turn 4 => refused 8 11
sweep 1 => ok 9 0
sweep 4 => ok 10 0
sweep 4 => ok 11 1
turn 1 => ok 12 0
end => end 12 8 2 1";

#[test]
fn runs_of_editions_and_chips(rt: HostRuntime) {
    let alloc = rt.alloc();
    for (edition, rest) in EDITIONS {
        edition_is_told(&rt, alloc, *edition, rest);
    }
    runs_are_told(&rt, alloc, TWO_CHIPS, SECOND_TURNS);
    row_is_told(&rt, alloc, FAR_CHIPS, Status::Ok);
}

/// The run of two chips, each with turns of its own, with a moment and a sweep behind its frames.
fn two_chips(rt: &impl Abort, alloc: Global) -> String {
    let rest = "turn 2\nturn 2\nnow 1000\nsweep 1\nend\n";
    let text = format!(in alloc; "{TWO_CHIPS}{rest}").expect(rt, "memory");
    read_row(rt, alloc, text.as_str()).input
}

/// Four workers take two chips' run. Their drain leaves neither chip an update.
#[test]
fn two_chips_by_four_workers(rt: HostRuntime) {
    let alloc = rt.alloc();
    let input = two_chips(&rt, alloc);
    let outcome = live_is_checked(&rt, alloc, "live --workers 4", input.as_bytes());
    let text = text_of(&rt, &outcome);
    let last = last_line(&rt, text);
    assert_that(&rt, last.ends_with(" 0 0"), last);
    assert_same(&rt, &count_lines(text, "now 1000"), &1, "now 1000");
    assert_same(&rt, &count_lines(text, "sweep 1"), &1, "sweep 1");
    assert_same(&rt, &count_lines(text, "serve"), &0, "serve");
}
