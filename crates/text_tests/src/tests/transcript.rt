//! Lines with their texts.
use super::common::{assert_bytes, assert_that, port};
use br_model::transcript::Line;
use port_sets::Ports;
use std::alloc::Global;
use std::process::Abort;
use transcript_lines::Lines;
use transcript_text::{Writer, read, write};

/// Each is written as it was read.
const LINES: &str = "\
chip 1 at 4294967295 0 drop
chip 1 at 2 0 trap
chip 1 at 2 0 copy
chip 1 at 2 0 forward
unread 1 short
unread 1 long
unread 1 tagshort
soft 7 at 0
held 8 2
tx 7 254 02ab0f
ctl 0 ff
overrun 4097
ok 1 3
refused 3 1
refused 2 15
end 9 10 0 2
";

const NO_LINES: &[&str] = &[
    "",
    "\n",
    "transcript 1\n",
    "bad 1 word\n",
    "ok 1 3",
    "ok 1 3\n\n",
    "ok 1  3\n",
    " ok 1 3\n",
    "ok 1 3 \n",
    "ok 1\n",
    "OK 1 3\n",
    "ok 01 3\n",
    "ok +1 3\n",
    "ok 4294967296 3\n",
    "ok 1 \u{FF13}\n",
    "end 1 2 3 4 5\n",
    "chip 1 at 2 0 drop drop\n",
    "soft 7 on 0\n",
    "unread 1 memory\n",
    "chip 1 at 2 0 Drop\n",
    "refused 3 0\n",
    "refused 3 99\n",
    "tx 7 255 02\n",
    "tx 7 1 \n",
    "tx 7 1 0\n",
    "tx 7 1 0g\n",
    "tx 7 1 AB\n",
];

/// A frame that leaves by four ports, by one of them without its tag, and one of the bridge itself.
const ROWS: &str = "\
soft 7 at 0
tx 7 1 02ab81000f
tx 7 2 02ab0f
tx 7 200 02ab81000f
tx 7 254 02ab81000f
ctl 5 0180
";

fn assert_read_and_written(rt: &impl Abort, alloc: Global, text: &str) {
    let found = read(alloc, text.as_bytes()).expect(rt, "memory");
    let line = found.expect(rt, "a line");
    let bytes = write(alloc, &line).expect(rt, "memory");
    assert_bytes(rt, bytes.as_slice(), text.as_bytes(), text);
}

#[test]
fn lines_as_they_were_read(rt: HostRuntime) {
    for text in LINES.split_inclusive('\n') {
        assert_read_and_written(&rt, rt.alloc(), text);
    }
}

#[test]
fn texts_that_are_no_lines(rt: HostRuntime) {
    for text in NO_LINES {
        let found = read(rt.alloc(), text.as_bytes()).expect(&rt, "memory");
        assert_that(&rt, found.is_none(), text);
    }
}

/// Those of a frame that is sent, and of a frame of the bridge.
fn rows(rt: &impl Abort, alloc: Global) -> Lines {
    let none = Ports::empty();
    let ports = none.with(1).with(2).with(200).with(254);
    let port = port(rt, 5);
    let mut lines = Lines::new(alloc);
    lines
        .push(Line::Soft { id: 7, point: 0 })
        .expect(rt, "memory");
    lines.reserve(2, 10).expect(rt, "memory");
    lines.push_sent(
        7,
        ports,
        none.with(2),
        &[0x02, 0xAB],
        &[0x81, 0x00],
        &[0x0F],
    );
    lines.push_ctl(port, &[0x01, 0x80]);
    lines
}

#[test]
fn lines_of_rows(rt: HostRuntime) {
    let mut text = String::new(rt.alloc());
    let lines = rows(&rt, rt.alloc());
    let written = Writer::new(rt.alloc()).append_lines(&lines, &mut text);
    written.expect(&rt, "memory");
    assert_bytes(&rt, text.as_bytes(), ROWS.as_bytes(), text.as_str());
}
