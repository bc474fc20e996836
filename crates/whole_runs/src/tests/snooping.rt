//! Worked runs of snooping.
use super::rows::{row_is_told, run_is_told};
use super::starts::{SOFT, with_chip};
use capture_runner::Status;
use std::alloc::{AllocError, Global};
use std::process::Abort;
use std::sync::Wait;
use std::thread::Threads;

/// A report whose record is cut short is flooded, and it is trapped at a port of the chip.
const CUT_SHORT: &str =
    "rx 1 01005e00001602000000000a080045000020000000000102cfc50a000001e00000162200d9fe0000000104000000 => chip 1 at 9 0 trap
serve => soft 1 at 9; tx 1 0 01005e00001602000000000a080045000020000000000102cfc50a000001e00000162200d9fe0000000104000000; tx 1 2 01005e00001602000000000a080045000020000000000102cfc50a000001e00000162200d9fe0000000104000000; tx 1 3 01005e00001602000000000a080045000020000000000102cfc50a000001e00000162200d9fe0000000104000000; ok 6 0
end => end 6 9 0 0";

/// A leave with a wrong checksum is flooded, and teaches its source.
const WRONG_CHECKSUM: &str =
    "rx 1 01005e00000202000000000a08004500001c000000000102cfdd0a000001e00000021700f7faef010204
serve => soft 1 at 9; tx 1 0 01005e00000202000000000a08004500001c000000000102cfdd0a000001e00000021700f7faef010204; tx 1 2 01005e00000202000000000a08004500001c000000000102cfdd0a000001e00000021700f7faef010204; tx 1 3 01005e00000202000000000a08004500001c000000000102cfdd0a000001e00000021700f7faef010204; ok 6 1
end => end 6 10 1 0";

#[test]
fn runs_of_snooping(rt: HostRuntime) {
    let text = with_chip(&rt, rt.alloc(), 1, CUT_SHORT);
    row_is_told(&rt, rt.alloc(), text.as_str(), Status::Ok);
    run_is_told(&rt, rt.alloc(), SOFT, WRONG_CHECKSUM);
}

/// Of IGMP version 2, and of 239.1.2.3.
const REPORT: &str =
    "01005e01020302000000000a08004500001c000000000102bedb0a000001ef0102031600f8faef010203";

/// The same by two other stations.
const SECOND_REPORT: &str =
    "01005e01020302000000000b08004500001c000000000102beda0a000002ef0102031600f8faef010203";

const THIRD_REPORT: &str =
    "01005e01020302000000000c08004500001c000000000102bed90a000003ef0102031600f8faef010203";

const LEAVE: &str =
    "01005e00000202000000000a08004500001c000000000102cfdd0a000001e00000021700f7faef010203";

/// To all groups.
pub(super) const QUERY: &str =
    "01005e00000102000000000e08004500001c000000000102cfd60a000009e00000011164ee9b00000000";

/// A datagram to the group.
const STREAM: &str = "01005e01020302000000000c080045000014000000000111bed30a000002ef010203";

/// The same by another station.
const OTHER_STREAM: &str = "01005e01020302000000000a080045000014000000000111bed40a000001ef010203";

/// A datagram to 224.0.0.5, which is always flooded.
const NEAR_STREAM: &str = "01005e00000502000000000c080045000014000000000111cfd20a000002e0000005";

/// Of MLD version 1, and of ff05::1234.
const MLD_REPORT: &str =
    "33330000123402000000000a86dd6000000000200001fe80000000000000000000000000000aff0500000000000000000000000012343a0005020000010083005bae00000000ff050000000000000000000000001234";

/// The run is told as it says.
fn row_of(
    rt: &(impl Abort + Threads + Wait + Sync),
    alloc: Global,
    text: Result<String, AllocError>,
) {
    row_is_told(rt, alloc, text.expect(rt, "memory").as_str(), Status::Ok);
}

/// A report, a query and a leave move a stream to where it is wanted.
#[test]
fn snooping(rt: HostRuntime) {
    let text = format!(in rt.alloc();
        "{SOFT}rx 1 {REPORT}
serve => soft 1 at 9; tx 1 0 {REPORT}; tx 1 2 {REPORT}; tx 1 3 {REPORT}; ok 6 2
rx 3 {QUERY}
serve => soft 2 at 9; tx 2 0 {QUERY}; tx 2 1 {QUERY}; tx 2 2 {QUERY}; ok 8 3
publish => ok 9 0
rx 2 {STREAM}
serve => soft 3 at 14; tx 3 1 {STREAM}; tx 3 3 {STREAM}; ok 11 1
rx 1 {REPORT}
serve => soft 4 at 14; tx 4 3 {REPORT}; ok 13 0
cmd link p1 fastleave on => ok 14 1
rx 1 {LEAVE}
serve => soft 5 at 14; tx 5 3 {LEAVE}; ok 16 1
rx 2 {NEAR_STREAM}
serve => soft 6 at 14; tx 6 0 {NEAR_STREAM}; tx 6 1 {NEAR_STREAM}; tx 6 3 {NEAR_STREAM}; ok 18 0
end => end 18 17 3 0
"
    );
    row_of(&rt, rt.alloc(), text);
}

/// It lasts for 260 s.
#[test]
fn mld_report(rt: HostRuntime) {
    let text = format!(in rt.alloc();
        "{SOFT}rx 1 {MLD_REPORT}
serve => soft 1 at 9; tx 1 0 {MLD_REPORT}; tx 1 2 {MLD_REPORT}; tx 1 3 {MLD_REPORT}; ok 6 2
now 259999 => ok 7 0
now 260000 => ok 8 1
end => end 8 12 1 0
"
    );
    row_of(&rt, rt.alloc(), text);
}

/// The example of a group with members on both sides, and of a router that moves.
#[test]
fn split_group(rt: HostRuntime) {
    let text = format!(in rt.alloc();
        "scenario 1
port 1 p1 chip 1
port 2 p2 chip 1
port 3 p3 soft
port 4 p4 soft
cmd port up p1 => ok 1 3
cmd port up p2 => ok 2 3
cmd port up p3 => ok 3 3
cmd port up p4 => ok 4 3
publish => ok 5 0
rx 4 {QUERY}
serve => soft 1 at 12; tx 1 0 {QUERY}; tx 1 1 {QUERY}; tx 1 2 {QUERY}; tx 1 3 {QUERY}; ok 7 3
rx 2 {SECOND_REPORT} => chip 2 at 15 0 trap
serve => soft 2 at 12; tx 2 0 {SECOND_REPORT}; tx 2 1 {SECOND_REPORT}; tx 2 3 {SECOND_REPORT}; tx 2 4 {SECOND_REPORT}; ok 9 1
rx 3 {THIRD_REPORT}
serve => soft 3 at 12; tx 3 0 {THIRD_REPORT}; tx 3 1 {THIRD_REPORT}; tx 3 2 {THIRD_REPORT}; tx 3 4 {THIRD_REPORT}; ok 11 2
rx 1 {OTHER_STREAM} => chip 4 at 18 0 copy; tx 4 2 {OTHER_STREAM}
serve => soft 4 at 12; tx 4 0 {OTHER_STREAM}; tx 4 3 {OTHER_STREAM}; tx 4 4 {OTHER_STREAM}; ok 13 0
publish => ok 14 0
rx 1 {OTHER_STREAM} => chip 5 at 18 0 copy; tx 5 2 {OTHER_STREAM}
serve => soft 5 at 18; tx 5 3 {OTHER_STREAM}; tx 5 4 {OTHER_STREAM}; ok 16 0
now 100000 => ok 17 0
rx 1 {QUERY} => chip 6 at 18 0 trap
serve => soft 6 at 18; tx 6 0 {QUERY}; tx 6 2 {QUERY}; tx 6 3 {QUERY}; tx 6 4 {QUERY}; ok 19 1
rx 2 {SECOND_REPORT} => chip 7 at 19 0 trap
serve => soft 7 at 18; tx 7 4 {SECOND_REPORT}; ok 21 0
publish => ok 22 0
now 255000 => ok 23 1
rx 1 {OTHER_STREAM} => chip 8 at 20 0 copy; tx 8 2 {OTHER_STREAM}
serve => soft 8 at 19; tx 8 3 {OTHER_STREAM}; tx 8 4 {OTHER_STREAM}; ok 25 0
now 260000 => ok 26 1
rx 1 {OTHER_STREAM} => chip 9 at 21 0 forward; tx 9 2 {OTHER_STREAM}
end => end 27 21 2 0
"
    );
    row_of(&rt, rt.alloc(), text);
}
