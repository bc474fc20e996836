//! Twenty-four chip ports in three VLANs, two trunks in software, and a capture of 200 broadcasts: run alone, and by workers.
use super::captures::{HEADER, INTERFACE};
use super::live::live_is_checked;
use super::{assert_same, assert_text, count_lines, extend, joined, last_line, push, ran, text_of};
use capture_runner::Status;
use std::alloc::Global;
use std::process::Abort;

/// The chip's ports.
const CHIP_PORTS: u8 = 24;

/// The packets of the capture.
const PACKETS: u8 = 200;

/// A query of a querier behind the first trunk, which is published.
const QUERY: &str =
    "rx 25 01005e00000102000000000e08004500001c000000000102cfd60a000009e00000011164ee9b00000000
serve
publish
";

fn push_port(rt: &impl Abort, text: &mut String, port: u8) {
    write!(text, "port {port} c{port} chip 1\n").expect(rt, "memory for a text");
}

/// The same command for each port of the chip.
fn push_commands(rt: &impl Abort, text: &mut String, command: &str) {
    for port in 1..=CHIP_PORTS {
        write!(text, "cmd {command} c{port}\n").expect(rt, "memory for a text");
    }
}

/// The chip's ports take turns in the VLANs 10, 20 and 30.
fn push_vlan(rt: &impl Abort, text: &mut String, port: u8) {
    let vlan = match port % 3 {
        0 => 30,
        1 => 10,
        _ => 20,
    };
    let written = write!(text, "cmd vlan add vid {vlan} dev c{port} pvid untagged\n");
    written.expect(rt, "memory for a text");
}

/// The trunks are members of each of them.
const TRUNKS: &str = "cmd vlan add vid 10 dev u1
cmd vlan add vid 10 dev u2
cmd vlan add vid 20 dev u1
cmd vlan add vid 20 dev u2
cmd vlan add vid 30 dev u1
cmd vlan add vid 30 dev u2
publish
";

/// All that stands before the capture.
fn opening(rt: &impl Abort, alloc: Global) -> String {
    let mut text = String::new(alloc);
    push(rt, &mut text, "scenario 1\n");
    for port in 1..=CHIP_PORTS {
        push_port(rt, &mut text, port);
    }
    push(rt, &mut text, "port 25 u1 soft\nport 26 u2 soft\n");
    push_commands(rt, &mut text, "port up");
    push(rt, &mut text, "cmd port up u1\ncmd port up u2\n");
    push_commands(rt, &mut text, "vlan del vid 1 dev");
    for port in 1..=CHIP_PORTS {
        push_vlan(rt, &mut text, port);
    }
    push(rt, &mut text, TRUNKS);
    push(rt, &mut text, QUERY);
    text
}

/// A broadcast of 60 bytes by this interface: type, total length, interface, time, captured and original length, the frame, total
/// length.
fn add_packet(rt: &impl Abort, bytes: &mut Vec<u8>, interface: u8) {
    extend(rt, bytes, b"\x06\x00\x00\x00\x5c\x00\x00\x00");
    extend(rt, bytes, &[interface, 0, 0, 0, 0, 0, 0, 0, 0, 0, 0, 0]);
    extend(rt, bytes, b"\x3c\x00\x00\x00\x3c\x00\x00\x00");
    extend(rt, bytes, b"\xff\xff\xff\xff\xff\xff\x02\x00\x00\x00\x01");
    extend(rt, bytes, &[interface.saturating_add(1), 8, 6]);
    extend(rt, bytes, &[0; 46]);
    extend(rt, bytes, b"\x5c\x00\x00\x00");
}

/// Its packets come by one interface after another.
fn section(rt: &impl Abort, alloc: Global) -> Vec<u8> {
    let mut bytes = joined(rt, alloc, &[HEADER]);
    add_times(rt, &mut bytes, INTERFACE, CHIP_PORTS);
    for packet in 0..PACKETS {
        add_packet(rt, &mut bytes, packet % CHIP_PORTS);
    }
    bytes
}

/// The same bytes so many times.
fn add_times(rt: &impl Abort, to: &mut Vec<u8>, bytes: &[u8], times: u8) {
    for _ in 0..times {
        extend(rt, to, bytes);
    }
}

/// The scenario: each packet is served and reported, and each update is applied.
fn scenario(rt: &impl Abort, alloc: Global) -> Vec<u8> {
    let section = section(rt, alloc);
    let mut text = opening(rt, alloc);
    write!(text, "capture {}\n", section.len()).expect(rt, "memory for a text");
    let mut bytes = joined(rt, alloc, &[text.as_bytes(), &section]);
    add_times(rt, &mut bytes, b"serve\n", PACKETS);
    add_times(rt, &mut bytes, b"report 1\n", CHIP_PORTS);
    add_times(rt, &mut bytes, b"turn 1\n", 25);
    extend(rt, &mut bytes, b"publish\nend\n");
    bytes
}

#[test]
fn broadcasts_by_three_vlans(rt: HostRuntime) {
    let outcome = ran(&rt, rt.alloc(), "replay", &scenario(&rt, rt.alloc()));
    assert_same(&rt, &outcome.status, &Status::Ok, "replay");
    let text = text_of(&rt, &outcome);
    assert_text(
        &rt,
        last_line(&rt, text),
        "end 534 159 0 0",
        "the last line",
    );
    assert_same(&rt, &count_lines(text, "tx "), &1802, "tx");
    assert_same(&rt, &count_lines(text, "refused "), &0, "refused");
    assert_same(&rt, &count_lines(text, "overrun "), &0, "overrun");
}

/// Four workers hold each frame, and what they write is the transcript of the steps as they happened.
#[test]
fn broadcasts_by_four_workers(rt: HostRuntime) {
    let alloc = rt.alloc();
    let input = scenario(&rt, alloc);
    let outcome = live_is_checked(&rt, alloc, "live --workers 4", &input);
    let text = text_of(&rt, &outcome);
    assert_same(&rt, &count_lines(text, "hold"), &201, "hold");
    assert_same(&rt, &count_lines(text, "serve"), &0, "serve");
}
