//! Worked rows, and the causes of bad lines.
use super::starts::{SOFT, with_chip};
use super::{is_told, push, read_row};
use capture_runner::Status;
use std::alloc::Global;
use std::process::Abort;
use std::sync::Wait;
use std::thread::Threads;

/// A frame to a known station.
pub(super) const FIRST_FRAME: &str = "scenario 1
port 1 p1 soft
port 2 p2 soft
cmd port up p1 => ok 1 3
cmd port up p2 => ok 2 3
cmd fdb add 02:00:00:00:00:0a dev p1 vlan 1 static => ok 3 1
cmd fdb add 02:00:00:00:00:0b dev p2 vlan 1 static => ok 4 1
publish => ok 5 0
rx 1 02000000000b02000000000a88b50102
serve => soft 1 at 8; tx 1 2 02000000000b02000000000a88b50102; ok 7 0
end => end 7 8 2 0
";

pub(super) fn row_is_told(
    rt: &(impl Abort + Threads + Wait + Sync),
    alloc: Global,
    text: &str,
    status: Status,
) {
    let worked = read_row(rt, alloc, text);
    let told = worked.told.as_str();
    is_told(rt, alloc, worked.input.as_bytes(), (status, told));
}

/// A run that begins so, and goes on with these lines. It ends well.
pub(super) fn run_is_told(
    rt: &(impl Abort + Threads + Wait + Sync),
    alloc: Global,
    start: &str,
    rest: &str,
) {
    let text = format!(in alloc; "{start}{rest}").expect(rt, "memory");
    row_is_told(rt, alloc, text.as_str(), Status::Ok);
}

/// The same of each of these runs. An empty line stands between two of them.
pub(super) fn runs_are_told(
    rt: &(impl Abort + Threads + Wait + Sync),
    alloc: Global,
    start: &str,
    runs: &str,
) {
    for rest in runs.split("\n\n") {
        run_is_told(rt, alloc, start, rest);
    }
}

#[test]
fn first_frame(rt: HostRuntime) {
    row_is_told(&rt, rt.alloc(), FIRST_FRAME, Status::Ok);
}

const EMPTY: &[&str] = &[
    "scenario 1\nend => end 0 0 0 0\n",
    "scenario 1\nend => end 0 0 0 0",
    "# first\n\n  scenario  1 \n   end   => end 0 0 0 0",
    "scenario 1\nend => end 0 0 0 0\nbogus\n",
];

/// What stands after the line `end` isn't looked at, and this line may lack its line feed.
#[test]
fn empty_scenario(rt: HostRuntime) {
    for text in EMPTY {
        row_is_told(&rt, rt.alloc(), text, Status::Ok);
    }
}

#[test]
fn first_refusals(rt: HostRuntime) {
    let text = "scenario 1
port 1 p1 soft
cmd port up p1 => ok 1 3
cmd port up p1 => refused 2 1
cmd fdb add 02:00:00:00:00:0a dev p1 vlan 7 static => refused 3 3
serve => refused 4 10
turn 1 => refused 5 11
serve => bad 8 unended";
    row_is_told(&rt, rt.alloc(), text, Status::BadLine);
}

/// The refusals but those of limits and moments.
#[test]
fn refusals(rt: HostRuntime) {
    let rest = "cmd port up p1 => refused 5 1
cmd fdb add 02:00:00:00:00:0b dev p2 vlan 7 static => refused 6 3
cmd fdb add 02:00:00:00:00:0b dev p2 vlan 1 static => ok 7 1
cmd fdb add 02:00:00:00:00:0b dev p3 vlan 1 static => refused 8 4
cmd fdb del 02:00:00:00:00:0a vlan 1 => refused 9 5
cmd mdb add 10.0.0.1 dev p1 vlan 1 => refused 10 13
turn 1 => ok 11 0
turn 1 => refused 12 11
serve => refused 13 10
report 1 => refused 14 12
cmd port down p3 => ok 15 2
cmd link p3 flood off => refused 16 2
end => end 16 12 0 0
";
    run_is_told(&rt, rt.alloc(), SOFT, rest);
}

/// Frames that are held are posted as it was published then, whatever was accepted and published since, in any order.
#[test]
fn held_frames(rt: HostRuntime) {
    let rest = "hold => refused 5 10
rx 1 02000000000b02000000000a88b50102
rx 2 02000000000d02000000000c88b50102
hold => held 1 9
cmd fdb add 02:00:00:00:00:0b dev p2 vlan 1 static => ok 9 1
publish => ok 10 0
hold => held 2 10
post 2 => soft 2 at 10; tx 2 1 02000000000d02000000000c88b50102; tx 2 3 02000000000d02000000000c88b50102; ok 12 1
post 1 => soft 1 at 9; tx 1 2 02000000000b02000000000a88b50102; tx 1 3 02000000000b02000000000a88b50102; ok 13 1
post 1 => refused 14 14
post 4294967295 => refused 15 14
end => end 15 12 3 0
";
    run_is_told(&rt, rt.alloc(), SOFT, rest);
}

/// Memberships by command, and snooping switched off and on.
#[test]
fn groups_by_command(rt: HostRuntime) {
    let text = "scenario 1
port 1 p1 soft
port 2 p2 soft
cmd port up p1 => ok 1 3
cmd port up p2 => ok 2 3
cmd mdb add 239.1.2.3 dev p1 vlan 1 => ok 3 1
cmd mdb add 239.1.2.3 dev p1 vlan 1 => refused 4 4
cmd mdb add 224.0.0.255 dev p2 vlan 7 => refused 5 13
cmd mdb add 224.0.1.0 dev p2 vlan 7 => refused 6 3
cmd mdb add FF02:0000:0000:0000:0000:0000:0000:0001 dev host vlan 1 => refused 7 13
cmd mdb add ff02:0000:0000:0000:0000:0000:0000:0002 dev host vlan 1 => ok 8 1
cmd mdb del 239.1.2.3 dev p2 vlan 7 => refused 9 5
cmd mdb del 239.1.2.3 dev p1 vlan 1 => ok 10 1
cmd mdb del 239.1.2.3 dev p1 vlan 1 => refused 11 5
cmd snooping on => ok 12 0
cmd snooping off => ok 13 1
now 4000000 => ok 14 0
cmd port down p2 => ok 15 2
cmd mdb del 10.0.0.1 dev p2 vlan 1 => refused 16 2
end => end 16 12 0 0
";
    row_is_told(&rt, rt.alloc(), text, Status::Ok);
}

/// What each run of a chip's ports and one of software goes on with. An empty line stands between two runs.
const CHIP_RUNS: &str =
    "# Chip and software share a frame to an unknown station, and the chip reports its source.
rx 1 02000000000b02000000000a88b50102 => chip 1 at 9 0 copy; tx 1 2 02000000000b02000000000a88b50102
serve => soft 1 at 9; tx 1 3 02000000000b02000000000a88b50102; ok 6 0
report 1 => ok 7 1
end => end 7 10 1 0

# Software decides by what is published while the chip hasn't applied it.
cmd fdb add 02:00:00:00:00:0b dev c2 vlan 1 static => ok 5 1
publish => ok 6 0
rx 1 02000000000b02000000000a88b50102 => chip 1 at 10 0 copy; tx 1 2 02000000000b02000000000a88b50102
serve => soft 1 at 10; ok 8 0
turn 1 => ok 9 0
rx 1 02000000000b02000000000a88b50102 => chip 2 at 10 1 forward; tx 2 2 02000000000b02000000000a88b50102
end => end 10 10 0 0

# A station moves to a port of software. Until the turn the chip forwards to the port that it left.
cmd fdb add 02:00:00:00:00:0b dev c2 vlan 1 extern => ok 5 1
turn 1 => ok 6 0
publish => ok 7 0
rx 3 02000000000a02000000000b88b50102
serve => soft 1 at 10; tx 1 1 02000000000a02000000000b88b50102; tx 1 2 02000000000a02000000000b88b50102; ok 9 1
publish => ok 10 0
rx 1 02000000000b02000000000a88b50102 => chip 2 at 11 1 forward; tx 2 2 02000000000b02000000000a88b50102
turn 1 => ok 12 0
rx 1 02000000000b02000000000a88b50102 => chip 3 at 11 2 trap
serve => soft 3 at 11; tx 3 3 02000000000b02000000000a88b50102; ok 14 0
end => end 14 11 0 0

# A station moves to a port of the chip. Until the turn the chip traps what is for it.
cmd fdb add 02:00:00:00:00:0b dev f3 vlan 1 extern => ok 5 1
turn 1 => ok 6 0
rx 2 02000000000a02000000000b88b50102 => chip 1 at 10 1 copy; tx 1 1 02000000000a02000000000b88b50102
report 1 => ok 8 1
publish => ok 9 0
rx 1 02000000000b02000000000a88b50102 => chip 2 at 11 1 trap
serve => soft 1 at 11; tx 1 3 02000000000a02000000000b88b50102; ok 11 0
serve => soft 2 at 11; tx 2 2 02000000000b02000000000a88b50102; ok 12 0
end => end 12 11 1 0

# A port comes up again while the deletion of its address is pending.
cmd fdb add 02:00:00:00:00:0b dev c2 vlan 1 static => ok 5 1
turn 1 => ok 6 0
cmd port down c2 => ok 7 3
cmd port up c2 => ok 8 3
rx 1 02000000000b02000000000a88b50102 => chip 1 at 16 1 forward; tx 1 2 02000000000b02000000000a88b50102
turn 1 => ok 10 0
rx 1 02000000000b02000000000a88b50102 => chip 2 at 16 2 copy; tx 2 2 02000000000b02000000000a88b50102
end => end 11 16 0 1

# From an isolated port nothing goes to an isolated port of software,
cmd link c1 isolated on => ok 5 1
cmd link f3 isolated on => ok 6 1
rx 1 02000000000b02000000000a88b50102 => chip 1 at 11 0 forward; tx 1 2 02000000000b02000000000a88b50102
end => end 7 11 0 0

# and from a plain one it does.
cmd link c1 isolated on => ok 5 1
cmd link f3 isolated on => ok 6 1
rx 2 02000000000b02000000000c88b50102 => chip 1 at 11 0 copy; tx 1 1 02000000000b02000000000c88b50102
serve => soft 1 at 9; tx 1 3 02000000000b02000000000c88b50102; ok 8 0
end => end 8 11 0 0

# A flood goes to the processor as long as a port of software is up.
rx 1 02000000000b02000000000a88b50102 => chip 1 at 9 0 copy; tx 1 2 02000000000b02000000000a88b50102
cmd port down f3 => ok 6 2
rx 1 02000000000b02000000000a88b50102 => chip 2 at 11 0 forward; tx 2 2 02000000000b02000000000a88b50102
cmd port up f3 => ok 8 3
rx 1 02000000000b02000000000a88b50102 => chip 3 at 14 0 copy; tx 3 2 02000000000b02000000000a88b50102
end => end 9 14 0 2

# An entry that nothing hits lives through one sweep,
cmd fdb add 02:00:00:00:00:0b dev c2 vlan 1 extern => ok 5 1
turn 1 => ok 6 0
sweep 1 => ok 7 0
sweep 1 => ok 8 1
sweep 1 => ok 9 0
turn 1 => ok 10 0
end => end 10 11 0 0

# and through one more where its station speaks in between.
cmd fdb add 02:00:00:00:00:0b dev c2 vlan 1 extern => ok 5 1
turn 1 => ok 6 0
sweep 1 => ok 7 0
rx 2 02000000000a02000000000b88b50102 => chip 1 at 10 1 copy; tx 1 1 02000000000a02000000000b88b50102
sweep 1 => ok 9 0
sweep 1 => ok 10 1
end => end 10 11 1 1";

#[test]
fn runs_with_a_chip(rt: HostRuntime) {
    let start = with_chip(&rt, rt.alloc(), 1, "");
    runs_are_told(&rt, rt.alloc(), start.as_str(), CHIP_RUNS);
}

/// The run of a frame that software and chip share, and that of a station which moves to a port of software.
pub(super) const SHARED: usize = 0;

pub(super) const MOVED: usize = 2;

/// The scenario of the run of this number.
pub(super) fn chip_scenario(rt: &impl Abort, alloc: Global, number: usize) -> String {
    let rest = CHIP_RUNS.split("\n\n").nth(number).expect(rt, "a run");
    let text = with_chip(rt, alloc, 1, rest);
    let mut input = read_row(rt, alloc, text.as_str()).input;
    push(rt, &mut input, "\n");
    input
}

/// The example of an entry that the chip keeps too long.
#[test]
fn stale_entry(rt: HostRuntime) {
    let text = "scenario 1
port 1 p1 chip 1
port 2 p2 chip 1
port 3 p3 soft
cmd port up p1 => ok 1 3
cmd port up p2 => ok 2 3
cmd port up p3 => ok 3 3
publish => ok 4 0
rx 2 02000000000a02000000000b88b50102 => chip 1 at 9 0 copy; tx 1 1 02000000000a02000000000b88b50102
serve => soft 1 at 9; tx 1 3 02000000000a02000000000b88b50102; ok 6 0
report 1 => ok 7 1
turn 1 => ok 8 0
publish => ok 9 0
rx 1 02000000000b02000000000a88b50102 => chip 2 at 10 1 forward; tx 2 2 02000000000b02000000000a88b50102
rx 3 02000000000a02000000000b88b50102
serve => soft 3 at 10; tx 3 1 02000000000a02000000000b88b50102; tx 3 2 02000000000a02000000000b88b50102; ok 12 1
publish => ok 13 0
rx 1 02000000000b02000000000a88b50102 => chip 4 at 11 1 forward; tx 4 2 02000000000b02000000000a88b50102
turn 1 => ok 15 0
rx 1 02000000000b02000000000a88b50102 => chip 5 at 11 2 trap
serve => soft 5 at 11; tx 5 3 02000000000b02000000000a88b50102; ok 17 0
end => end 17 11 0 0
";
    row_is_told(&rt, rt.alloc(), text, Status::Ok);
}

const CAUSES: &[(&str, &str)] = &[
    ("", "unended"),
    ("serve", "unended"),
    ("# a comment", "unended"),
    ("  ", "unended"),
    ("bogus", "unended"),
    ("bogus\n", "word"),
    ("Serve\n", "word"),
    ("serve\r\n", "word"),
    ("serve now\n", "word"),
    (" # a space first\n", "word"),
    ("cmd\n", "word"),
    ("rx 1\n", "word"),
    ("port 2 p2 chip\n", "word"),
    ("scenario 3\n", "word"),
    ("scenario 1 1\n", "word"),
    ("scenario 1\n", "place"),
    ("scenario 2\n", "place"),
    ("port 2 p2 chip 5\n", "number"),
    ("port 2 p2 chip 0\n", "number"),
    ("port 1 p2 chip 5\n", "port"),
    ("report 0\n", "number"),
    ("turn 5\n", "number"),
    ("sweep 01\n", "number"),
    ("turn 2\n", "port"),
    ("port 0 p2 soft\n", "number"),
    ("port 255 p2 soft\n", "number"),
    ("port 02 host soft\n", "number"),
    ("port 1 p2 soft\n", "port"),
    ("port 2 p1 soft\n", "port"),
    ("port 2 host soft\n", "port"),
    ("port 2 sixteen-letters. soft\n", "port"),
    ("cmd port up p2\n", "port"),
    ("bridge 02:00:00:00:00:02\n", "place"),
    ("cmd stp\n", "word"),
    ("cmd link p1 cost 0\n", "number"),
    ("cmd link p1 priority 256\n", "number"),
    ("cmd stp priority 65536\n", "number"),
    ("cmd port up host\n", "port"),
    (
        "cmd fdb add 03:00:00:00:00:0a dev p2 vlan 0 static\n",
        "address",
    ),
    (
        "cmd fdb add 00:00:00:00:00:00 dev p1 vlan 1 static\n",
        "address",
    ),
    (
        "cmd fdb add 02:00:00:00:0a dev p1 vlan 1 static\n",
        "address",
    ),
    (
        "cmd fdb add 02:00:00:00:00:0a dev p2 vlan 0 static\n",
        "port",
    ),
    (
        "cmd fdb add 02:00:00:00:00:0a dev p1 vlan 0 static\n",
        "number",
    ),
    (
        "cmd fdb add 02:00:00:00:00:0a dev p1 vlan 4095 static\n",
        "number",
    ),
    ("cmd mdb add 239.1.2.3 dev p1\n", "word"),
    ("cmd mdb add 256.1.2.3 dev p2 vlan 0\n", "address"),
    ("cmd mdb add 239.1.02.3 dev p1 vlan 1\n", "address"),
    ("cmd mdb add 239.1.2 dev p1 vlan 1\n", "address"),
    ("cmd mdb add ff05::1234 dev p1 vlan 1\n", "address"),
    ("cmd mdb del 239.1.2.3 dev p2 vlan 0\n", "port"),
    ("cmd mdb del 239.1.2.3 dev p1 vlan 0\n", "number"),
    ("cmd snooping\n", "word"),
    ("hold 1\n", "word"),
    ("post\n", "word"),
    ("post 01\n", "number"),
    ("post 4294967296\n", "number"),
    ("post 1 at 0\n", "place"),
    ("rx one 0g\n", "number"),
    ("rx 2 0g\n", "port"),
    ("rx 300 00\n", "port"),
    ("rx 1 0g\n", "hex"),
    ("rx 1 000\n", "hex"),
];

fn third_line_is_bad(
    rt: &(impl Abort + Threads + Wait + Sync),
    alloc: Global,
    rest: &str,
    why: &str,
) {
    let input = format!(in alloc; "scenario 1\nport 1 p1 soft\n{rest}").expect(rt, "memory");
    let told = format!(in alloc; "bad 3 {why}\n").expect(rt, "memory");
    let answer = (Status::BadLine, told.as_str());
    is_told(rt, alloc, input.as_bytes(), answer);
}

/// A bad third line after the declaration of port 1, and its cause.
#[test]
fn causes_of_bad_lines(rt: HostRuntime) {
    for (rest, why) in CAUSES {
        third_line_is_bad(&rt, rt.alloc(), rest, why);
    }
}

const PLACES: &[(&str, &str)] = &[
    ("", "bad 1 unended\n"),
    ("end", "bad 1 place\n"),
    ("port 0 host soft\n", "bad 1 place\n"),
    ("scenario 1\n", "bad 2 unended\n"),
    ("scenario 1\nbridge 01:00:5e:00:00:01\n", "bad 2 address\n"),
    (
        "scenario 1\nbridge 02:00:00:00:00:02\n\nbridge 02:00:00:00:00:02\n",
        "bad 4 place\n",
    ),
    (
        "scenario 1\n\n  \n# a comment\nport 1 p1 soft\nport 2 p1 soft\n",
        "bad 6 port\n",
    ),
    (
        "scenario 1\nserve\nport 0 host soft\n",
        "refused 1 10\nbad 3 place\n",
    ),
];

/// Skipped lines count, and each line has its place.
#[test]
fn numbers_and_places_of_bad_lines(rt: HostRuntime) {
    for (input, told) in PLACES {
        let answer = (Status::BadLine, *told);
        is_told(&rt, rt.alloc(), input.as_bytes(), answer);
    }
}

/// 01-80-C2-00-00-02 and 0F go to the host alone, 01 nowhere; 10, and 00 while the spanning tree is off, are ordinary
/// multicasts.
#[test]
fn reserved_addresses(rt: HostRuntime) {
    let text = "scenario 1
port 1 p1 soft
port 2 p2 soft
cmd port up p1 => ok 1 3
cmd port up p2 => ok 2 3
publish => ok 3 0
rx 1 0180c200000202000000000a88b50102
serve => soft 1 at 6; tx 1 0 0180c200000202000000000a88b50102; ok 5 0
rx 1 0180c200000f02000000000a88b50102
serve => soft 2 at 6; tx 2 0 0180c200000f02000000000a88b50102; ok 7 0
rx 1 0180c200001002000000000a88b50102
serve => soft 3 at 6; tx 3 0 0180c200001002000000000a88b50102; tx 3 2 0180c200001002000000000a88b50102; ok 9 1
rx 1 0180c200000102000000000a88b50102
serve => soft 4 at 6; ok 11 0
rx 1 0180c200000002000000000a88b50102
serve => soft 5 at 6; tx 5 0 0180c200000002000000000a88b50102; tx 5 2 0180c200000002000000000a88b50102; ok 13 0
end => end 13 7 1 0
";
    row_is_told(&rt, rt.alloc(), text, Status::Ok);
}
