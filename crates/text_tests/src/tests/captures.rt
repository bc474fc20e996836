//! Packets of captures, and faults in them.
use super::common::{assert_bytes, assert_same, assert_that};
use pcapng_read::{Blocks, CapFault, CapKind, Packet};
use std::alloc::Global;
use std::process::Abort;

/// Section headers of both byte orders: type, total length, magic, version 1.0, an unknown section length, total length.
const SECTION: &[u8] =
    b"\x0a\x0d\x0d\x0a\x1c\x00\x00\x00\x4d\x3c\x2b\x1a\x01\x00\x00\x00\xff\xff\xff\xff\xff\xff\xff\xff\x1c\x00\x00\x00";

const SECTION_HIGH: &[u8] =
    b"\x0a\x0d\x0d\x0a\x00\x00\x00\x1c\x1a\x2b\x3c\x4d\x00\x01\x00\x00\xff\xff\xff\xff\xff\xff\xff\xff\x00\x00\x00\x1c";

/// Descriptions of Ethernet interfaces: type, total length, link type 1, reserved, snap length, total length.
const ETHERNET: &[u8] =
    b"\x01\x00\x00\x00\x14\x00\x00\x00\x01\x00\x00\x00\x00\x00\x04\x00\x14\x00\x00\x00";

const ETHERNET_HIGH: &[u8] =
    b"\x00\x00\x00\x01\x00\x00\x00\x14\x00\x01\x00\x00\x00\x04\x00\x00\x00\x00\x00\x14";

/// Another link type, raw IP, with options: the interface is named `tun`, and the options end.
const RAW_IP: &[u8] =
    b"\x01\x00\x00\x00\x20\x00\x00\x00\x65\x00\x00\x00\x00\x00\x00\x00\x02\x00\x03\x00tun\x00\x00\x00\x00\x00\x20\x00\x00\x00";

const FRAME: &[u8] = b"\x02\x00\x00\x00\x00\x0b\x02\x00\x00\x00\x00\x0a\x88\xb5\x01\x02";

/// Packets: type, total length, interface 0, time, captured and original length 16, the frame, total length.
const PACKET: &[u8] =
    b"\x06\x00\x00\x00\x30\x00\x00\x00\x00\x00\x00\x00\x00\x00\x00\x00\x00\x00\x00\x00\x10\x00\x00\x00\x10\x00\x00\x00\x02\x00\x00\x00\x00\x0b\x02\x00\x00\x00\x00\x0a\x88\xb5\x01\x02\x30\x00\x00\x00";

/// The packet of the lowest byte first without its last byte.
const CUT_PACKET: &[u8] =
    b"\x06\x00\x00\x00\x30\x00\x00\x00\x00\x00\x00\x00\x00\x00\x00\x00\x00\x00\x00\x00\x10\x00\x00\x00\x10\x00\x00\x00\x02\x00\x00\x00\x00\x0b\x02\x00\x00\x00\x00\x0a\x88\xb5\x01\x02\x30\x00\x00";

const PACKET_HIGH: &[u8] =
    b"\x00\x00\x00\x06\x00\x00\x00\x30\x00\x00\x00\x00\x00\x00\x00\x00\x00\x00\x00\x00\x00\x00\x00\x10\x00\x00\x00\x10\x02\x00\x00\x00\x00\x0b\x02\x00\x00\x00\x00\x0a\x88\xb5\x01\x02\x00\x00\x00\x30";

/// Three bytes of 1,500 by interface 1, with a byte of padding.
const SHORTENED: &[u8] =
    b"\x06\x00\x00\x00\x24\x00\x00\x00\x01\x00\x00\x00\x00\x00\x00\x00\x00\x00\x00\x00\x03\x00\x00\x00\xdc\x05\x00\x00\x01\x02\x03\x00\x24\x00\x00\x00";

/// No bytes by interface 1, with options: the comment `hi`, and the options end.
const NO_BYTES: &[u8] =
    b"\x06\x00\x00\x00\x2c\x00\x00\x00\x01\x00\x00\x00\x00\x00\x00\x00\x00\x00\x00\x00\x00\x00\x00\x00\x00\x00\x00\x00\x01\x00\x02\x00hi\x00\x00\x00\x00\x00\x00\x2c\x00\x00\x00";

/// Blocks that are skipped: statistics of interface 0 (type 5: interface, time), and a type of this test's own without a body.
const STATISTICS: &[u8] =
    b"\x05\x00\x00\x00\x18\x00\x00\x00\x00\x00\x00\x00\x00\x00\x00\x00\x00\x00\x00\x00\x18\x00\x00\x00";

const BARE: &[u8] = b"\xfe\xca\x00\x80\x0c\x00\x00\x00\x0c\x00\x00\x00";

// A file as dumpcap writes it, with a custom block in it; the lowest byte first. What its blocks are:

/// The section header: version 1.0, an unknown section length, and options: the hardware, the system, the program.
const FILE_HEADER: &[u8] =
    b"\x0a\x0d\x0d\x0a\x5c\x00\x00\x00\x4d\x3c\x2b\x1a\x01\x00\x00\x00\xff\xff\xff\xff\xff\xff\xff\xff\x02\x00\x06\x00x86 64\x00\x00\x03\x00\x09\x00Linux 6.1\x00\x00\x00\x04\x00\x19\x00Dumpcap (Wireshark) 4.2.2\x00\x00\x00\x00\x00\x00\x00\x5c\x00\x00\x00";

/// A description of an Ethernet interface: link type 1, snap length 262,144, and options: its name `eth0`, times in nanoseconds,
/// the filter `arp`, the system.
const FILE_ETH0: &[u8] =
    b"\x01\x00\x00\x00\x40\x00\x00\x00\x01\x00\x00\x00\x00\x00\x04\x00\x02\x00\x04\x00eth0\x09\x00\x01\x00\x09\x00\x00\x00\x0b\x00\x04\x00\x00arp\x0c\x00\x09\x00Linux 6.1\x00\x00\x00\x00\x00\x00\x00\x40\x00\x00\x00";

/// The same of `eth1`.
const FILE_ETH1: &[u8] =
    b"\x01\x00\x00\x00\x40\x00\x00\x00\x01\x00\x00\x00\x00\x00\x04\x00\x02\x00\x04\x00eth1\x09\x00\x01\x00\x09\x00\x00\x00\x0b\x00\x04\x00\x00arp\x0c\x00\x09\x00Linux 6.1\x00\x00\x00\x00\x00\x00\x00\x40\x00\x00\x00";

/// A custom block, type 0xBAD: the number of an enterprise (32473, for examples), and bytes of its own.
const FILE_CUSTOM: &[u8] = b"\xad\x0b\x00\x00\x14\x00\x00\x00\xd9\x7e\x00\x00test\x14\x00\x00\x00";

/// A packet by interface 1, at a time in two halves: 60 bytes were captured of 60, an ARP request with its padding.
const FILE_BY_ETH1: &[u8] =
    b"\x06\x00\x00\x00\x5c\x00\x00\x00\x01\x00\x00\x00\x34\x12\x06\x00\xbc\x9a\x78\x56\x3c\x00\x00\x00\x3c\x00\x00\x00\xff\xff\xff\xff\xff\xff\x02\x00\x00\x00\x00\x0a\x08\x06\x00\x01\x08\x00\x06\x04\x00\x01\x02\x00\x00\x00\x00\x0a\xc0\x00\x02\x01\x00\x00\x00\x00\x00\x00\xc0\x00\x02\x02\x00\x00\x00\x00\x00\x00\x00\x00\x00\x00\x00\x00\x00\x00\x00\x00\x00\x00\x5c\x00\x00\x00";

/// The same request by interface 0 without its padding: 42 bytes, two bytes of padding of the block, and options: it came in.
const FILE_BY_ETH0: &[u8] =
    b"\x06\x00\x00\x00\x58\x00\x00\x00\x00\x00\x00\x00\x34\x12\x06\x00\xbc\x9a\x78\x56\x2a\x00\x00\x00\x2a\x00\x00\x00\xff\xff\xff\xff\xff\xff\x02\x00\x00\x00\x00\x0a\x08\x06\x00\x01\x08\x00\x06\x04\x00\x01\x02\x00\x00\x00\x00\x0a\xc0\x00\x02\x01\x00\x00\x00\x00\x00\x00\xc0\x00\x02\x02\x00\x00\x02\x00\x04\x00\x01\x00\x00\x00\x00\x00\x00\x00\x58\x00\x00\x00";

/// The statistics of interface 0: a time, and options: the times of start and end, packets received and dropped.
const FILE_STATISTICS_ETH0: &[u8] =
    b"\x05\x00\x00\x00\x4c\x00\x00\x00\x00\x00\x00\x00\x34\x12\x06\x00\xbc\x9a\x78\x56\x02\x00\x08\x00\x34\x12\x06\x00\xbc\x9a\x78\x56\x03\x00\x08\x00\x34\x12\x06\x00\xbc\x9a\x78\x56\x04\x00\x08\x00\x01\x00\x00\x00\x00\x00\x00\x00\x05\x00\x08\x00\x00\x00\x00\x00\x00\x00\x00\x00\x00\x00\x00\x00\x4c\x00\x00\x00";

/// And of interface 1.
const FILE_STATISTICS_ETH1: &[u8] =
    b"\x05\x00\x00\x00\x4c\x00\x00\x00\x01\x00\x00\x00\x34\x12\x06\x00\xbc\x9a\x78\x56\x02\x00\x08\x00\x34\x12\x06\x00\xbc\x9a\x78\x56\x03\x00\x08\x00\x34\x12\x06\x00\xbc\x9a\x78\x56\x04\x00\x08\x00\x01\x00\x00\x00\x00\x00\x00\x00\x05\x00\x08\x00\x00\x00\x00\x00\x00\x00\x00\x00\x00\x00\x00\x00\x4c\x00\x00\x00";

/// The request, with its padding and without.
const PADDED_REQUEST: &[u8] =
    b"\xff\xff\xff\xff\xff\xff\x02\x00\x00\x00\x00\x0a\x08\x06\x00\x01\x08\x00\x06\x04\x00\x01\x02\x00\x00\x00\x00\x0a\xc0\x00\x02\x01\x00\x00\x00\x00\x00\x00\xc0\x00\x02\x02\x00\x00\x00\x00\x00\x00\x00\x00\x00\x00\x00\x00\x00\x00\x00\x00\x00\x00";

const REQUEST: &[u8] =
    b"\xff\xff\xff\xff\xff\xff\x02\x00\x00\x00\x00\x0a\x08\x06\x00\x01\x08\x00\x06\x04\x00\x01\x02\x00\x00\x00\x00\x0a\xc0\x00\x02\x01\x00\x00\x00\x00\x00\x00\xc0\x00\x02\x02";

/// What is read of a capture: its packets, and the fault behind them.
#[derive(Drop)]
struct Outcome {
    packets: Vec<Packet>,
    fault: Option<(u32, CapKind)>,
}

/// Reads one more packet, or the fault. Whether there was a packet.
fn read_one(rt: &impl Abort, blocks: &mut Blocks, outcome: &mut Outcome) -> bool {
    match blocks.next() {
        Ok(Some(packet)) => {
            outcome
                .packets
                .push(packet)
                .expect(rt, "memory for packets");
            true
        }
        Ok(None) => false,
        Err(CapFault::At { offset, kind }) => {
            outcome.fault = Some((offset, kind));
            false
        }
        Err(CapFault::NoMemory) => panic!(rt; "no memory"),
    }
}

/// More packets than any of these captures has.
const MORE: usize = 10;

fn read(rt: &impl Abort, alloc: Global, bytes: &[u8], ports: u32) -> Outcome {
    assert!(rt; bytes.len() <= 1 << 24);
    let mut blocks = Blocks::of(alloc, bytes, ports);
    let mut outcome = Outcome {
        packets: Vec::new(alloc),
        fault: None,
    };
    for _ in 0..MORE {
        if !read_one(rt, &mut blocks, &mut outcome) {
            break;
        }
    }
    assert_that(rt, outcome.packets.len() < MORE, "the end");
    outcome
}

fn joined(rt: &impl Abort, alloc: Global, pieces: &[&[u8]]) -> Vec<u8> {
    let mut bytes = Vec::new(alloc);
    for piece in pieces {
        bytes
            .extend_from_slice(piece)
            .expect(rt, "memory for bytes");
    }
    bytes
}

/// What is read of these pieces, one behind another.
fn read_pieces(rt: &impl Abort, alloc: Global, pieces: &[&[u8]], ports: u32) -> Outcome {
    let bytes = joined(rt, alloc, pieces);
    read(rt, alloc, &bytes, ports)
}

fn assert_packets(rt: &impl Abort, packets: &[Packet], expected: &[(u32, &[u8])], what: &str) {
    assert_same(rt, &packets.len(), &expected.len(), what);
    for (packet, (interface, bytes)) in packets.iter().zip(expected) {
        assert_same(rt, &packet.interface, interface, what);
        assert_bytes(rt, packet.bytes.as_slice(), bytes, what);
    }
}

/// What the capture of three ports is, its pieces, and the packets with their interfaces.
const CAPTURES: &[(&str, &[&[u8]], &[(u32, &[u8])])] = &[
    ("nothing", &[], &[]),
    (
        "the lowest byte first",
        &[SECTION, ETHERNET, PACKET],
        &[(0, FRAME)],
    ),
    (
        "the highest byte first",
        &[SECTION_HIGH, ETHERNET_HIGH, PACKET_HIGH],
        &[(0, FRAME)],
    ),
    (
        "padding, options, other blocks",
        &[
            SECTION, BARE, ETHERNET, ETHERNET, SHORTENED, NO_BYTES, STATISTICS, PACKET, BARE,
        ],
        &[(1, b"\x01\x02\x03"), (1, b""), (0, FRAME)],
    ),
    (
        "an interface of another link type, without a packet",
        &[SECTION, ETHERNET, RAW_IP, PACKET],
        &[(0, FRAME)],
    ),
    (
        "two sections, each with its byte order and its interfaces",
        &[
            SECTION,
            RAW_IP,
            ETHERNET,
            SHORTENED,
            SECTION_HIGH,
            ETHERNET_HIGH,
            PACKET_HIGH,
        ],
        &[(1, b"\x01\x02\x03"), (0, FRAME)],
    ),
    (
        "more interfaces than ports",
        &[SECTION, ETHERNET, ETHERNET, RAW_IP, RAW_IP, PACKET],
        &[(0, FRAME)],
    ),
    (
        "a file of dumpcap",
        &[
            FILE_HEADER,
            FILE_ETH0,
            FILE_ETH1,
            FILE_CUSTOM,
            FILE_BY_ETH1,
            FILE_BY_ETH0,
            FILE_STATISTICS_ETH0,
            FILE_STATISTICS_ETH1,
        ],
        &[(1, PADDED_REQUEST), (0, REQUEST)],
    ),
];

#[test]
fn packets_of_captures(rt: HostRuntime) {
    for (what, pieces, expected) in CAPTURES {
        let read = read_pieces(&rt, rt.alloc(), pieces, 3);
        assert_same(&rt, &read.fault, &None, what);
        assert_packets(&rt, &read.packets, expected, what);
    }
}

/// The worked capture with some bytes changed.
fn changed(rt: &impl Abort, alloc: Global, changes: &[(usize, u8)]) -> Vec<u8> {
    let mut bytes = joined(rt, alloc, &[SECTION, ETHERNET, PACKET]);
    for (at, byte) in changes {
        match bytes.get_mut(*at) {
            Some(place) => *place = *byte,
            None => panic!(rt; "no place in it"),
        }
    }
    bytes
}

/// How many packets come, where the fault behind them is, and which.
fn assert_fault(
    rt: &impl Abort,
    outcome: &Outcome,
    packets: usize,
    fault: (u32, CapKind),
    what: &str,
) {
    assert_same(rt, &outcome.packets.len(), &packets, what);
    assert_same(rt, &outcome.fault, &Some(fault), what);
}

const CHANGES: &[(&str, &[(usize, u8)], u32, CapKind)] = &[
    ("no section header", &[(0, 0x01)], 0, CapKind::First),
    ("magic", &[(11, 0x1b)], 0, CapKind::Magic),
    (
        "magic before length",
        &[(11, 0x1b), (4, 0x08)],
        0,
        CapKind::Magic,
    ),
    ("section header of 24", &[(4, 0x18)], 0, CapKind::Length),
    ("unlike its repetition", &[(24, 0x20)], 0, CapKind::Length),
    (
        "length before version",
        &[(24, 0x20), (12, 0x02)],
        0,
        CapKind::Length,
    ),
    ("version 2", &[(12, 0x02)], 0, CapKind::Version),
    ("no multiple of 4", &[(32, 0x15)], 28, CapKind::Length),
    ("interface of 16", &[(32, 0x10)], 28, CapKind::Length),
    (
        "another block of 8",
        &[(28, 0x05), (32, 0x08)],
        28,
        CapKind::Length,
    ),
    ("above 2^20", &[(34, 0x10)], 28, CapKind::Length),
    ("2^20", &[(32, 0x00), (34, 0x10)], 28, CapKind::Short),
    ("interface 1", &[(56, 0x01)], 48, CapKind::Interface),
    ("raw IP", &[(36, 0x65)], 48, CapKind::Link),
    ("link type 0", &[(36, 0x00)], 48, CapKind::Link),
    ("captured 17", &[(68, 0x11)], 48, CapKind::Captured),
    (
        "captured 2^32 - 1",
        &[(68, 0xff), (69, 0xff), (70, 0xff), (71, 0xff)],
        48,
        CapKind::Captured,
    ),
    (
        "interface before captured",
        &[(56, 0x01), (68, 0x11)],
        48,
        CapKind::Interface,
    ),
    (
        "link type before captured",
        &[(36, 0x65), (68, 0x11)],
        48,
        CapKind::Link,
    ),
];

#[test]
fn changed_bytes(rt: HostRuntime) {
    for (what, changes, offset, kind) in CHANGES {
        let bytes = changed(&rt, rt.alloc(), changes);
        let read = read(&rt, rt.alloc(), &bytes, 3);
        assert_fault(&rt, &read, 0, (*offset, *kind), what);
    }
}

/// Of two sections, for so many ports: how many packets come, and where the fault is.
const FAULTS: &[(&str, &[&[u8]], u32, usize, u32, CapKind)] = &[
    (
        "no port",
        &[SECTION, ETHERNET, PACKET],
        0,
        0,
        48,
        CapKind::Interface,
    ),
    (
        "one port",
        &[SECTION, ETHERNET, ETHERNET, PACKET, SHORTENED],
        1,
        1,
        116,
        CapKind::Interface,
    ),
    (
        "three bytes are left",
        &[SECTION, ETHERNET, PACKET, b"\x0a\x0d\x0d"],
        3,
        1,
        96,
        CapKind::Short,
    ),
    (
        "a byte lacks",
        &[SECTION, ETHERNET, PACKET, CUT_PACKET],
        3,
        1,
        96,
        CapKind::Short,
    ),
    (
        "interface of the section before",
        &[SECTION, ETHERNET, PACKET, SECTION_HIGH, PACKET_HIGH],
        3,
        1,
        124,
        CapKind::Interface,
    ),
    (
        "byte order of the section before",
        &[SECTION, ETHERNET, PACKET, SECTION_HIGH, ETHERNET],
        3,
        1,
        124,
        CapKind::Length,
    ),
    (
        "the second section's link type",
        &[SECTION, ETHERNET, PACKET, SECTION, RAW_IP, PACKET],
        3,
        1,
        156,
        CapKind::Link,
    ),
];

#[test]
fn faults_behind_packets(rt: HostRuntime) {
    for (what, pieces, ports, packets, offset, kind) in FAULTS {
        let read = read_pieces(&rt, rt.alloc(), pieces, *ports);
        assert_fault(&rt, &read, *packets, (*offset, *kind), what);
    }
}
