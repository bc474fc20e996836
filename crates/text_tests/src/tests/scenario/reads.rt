//! Good lines and bad ones, with the last line of a run that ends there.
use crate::tests::common::assert_text;
use bridge_command::Roster;
use scenario_text::read_line;
use std::alloc::Global;
use std::process::Abort;
use transcript_text::append_bad;

/// Lines of one scenario in order. No text stands beside a good line.
const LINES: &[(&str, &str)] = &[
    ("", ""),
    ("# a comment", ""),
    (" #x", "bad 7 word\n"),
    ("scenario 3", "bad 7 word\n"),
    ("Scenario 1", "bad 7 word\n"),
    ("scenario\t1", "bad 7 word\n"),
    ("serve", "bad 7 place\n"),
    ("capture x", "bad 7 place\n"),
    ("  scenario   1 ", ""),
    ("scenario 1", "bad 7 place\n"),
    ("bridge 03:00:00:00:00:ab", "bad 7 address\n"),
    ("bridge 00:00:00:00:00:00", "bad 7 address\n"),
    ("bridge 02:00:00:00:00:aB", ""),
    ("bridge 02:00:00:00:00:ac", "bad 7 place\n"),
    ("port 0 a soft", "bad 7 number\n"),
    ("port 255 a soft", "bad 7 number\n"),
    ("port 01 a soft", "bad 7 number\n"),
    ("port 18446744073709551617 a soft", "bad 7 number\n"),
    ("port 1 host soft", "bad 7 port\n"),
    ("port 1 sixteen-letters. soft", "bad 7 port\n"),
    ("port 1 a/b soft", "bad 7 port\n"),
    ("port 1 a chip 5", "bad 7 number\n"),
    ("port 1 fifteen_letters soft", ""),
    ("port 1 b soft", "bad 7 port\n"),
    ("port 2 fifteen_letters chip 1", "bad 7 port\n"),
    ("port 254 p-2 chip 1", ""),
    ("rx x 0g", "bad 7 number\n"),
    ("rx 2 0g", "bad 7 port\n"),
    ("rx 0 00", "bad 7 port\n"),
    ("rx 1 0g", "bad 7 hex\n"),
    ("rx 1 000", "bad 7 hex\n"),
    ("rx 1 00fFaA", ""),
    ("port 2 eth2 soft", "bad 7 place\n"),
    ("cmd port up host", "bad 7 port\n"),
    ("cmd link p-2 hairpin on", "bad 7 word\n"),
    ("cmd link p-2 cost 0", "bad 7 number\n"),
    ("cmd vlan add vid 1 dev p-2 untagged pvid", "bad 7 word\n"),
    ("cmd vlan add vid 4095 dev nobody", "bad 7 number\n"),
    (
        "cmd fdb add 02:00:00:00:00:01 dev p-2 vlan 1 local",
        "bad 7 word\n",
    ),
    (
        "cmd fdb add 02-00-00-00-00-01 dev p-2 vlan 1 static",
        "bad 7 address\n",
    ),
    ("cmd mdb add ff05::1234 dev p-2 vlan 1", "bad 7 address\n"),
    ("cmd ageing 1000001", "bad 7 number\n"),
    ("now 9007199254740992", "bad 7 number\n"),
    ("turn 2", "bad 7 port\n"),
    ("turn 5", "bad 7 number\n"),
    ("post 4294967296", "bad 7 number\n"),
    ("post 1 at 2", "bad 7 place\n"),
    (" capture  16777216 ", ""),
    ("capture 16777217", "bad 7 number\n"),
    ("a b c d e f g h i j k l m n o p q", "bad 7 word\n"),
    ("end", ""),
];

/// What a run writes last where its seventh line is this one and bad.
fn last_line(rt: &impl Abort, alloc: Global, line: &str, roster: &mut Roster) -> String {
    let mut text = String::new(alloc);
    if let Err(why) = read_line(alloc, line.as_bytes(), roster) {
        append_bad(7, why, &mut text).expect(rt, "memory");
    }
    text
}

#[test]
fn good_and_bad_lines(rt: HostRuntime) {
    let alloc = rt.alloc();
    let mut roster = Roster::make(alloc, false).expect(&rt, "memory");
    for (line, want) in LINES {
        let found = last_line(&rt, alloc, line, &mut roster);
        assert_text(&rt, found.as_str(), want, line);
    }
}
