//! Frames by hand.

use self::To::{All, Reserved, Station};
use super::common::{assert_ports, assert_same, dom, port, station};
use br_model::change::{Change, FORWARDING, Flags, Kind};
use br_model::domains::Domains;
use br_model::frame::{Class, Head, McastMsg, Tag};
use br_model::numbers::{Dom, Mac, Port, Vid};
use forward_rules::SoftTables;
use std::alloc::Global;
use std::process::Abort;

/// Where a frame goes.
#[derive(Clone, Copy)]
enum To {
    Station(u16),
    Reserved(u8),
    All,
}

fn address(to: To) -> Mac {
    match to {
        To::Station(last) => station(last),
        To::Reserved(last) => Mac::new([1, 0x80, 0xC2, 0, 0, last]),
        To::All => Mac::new([255; 6]),
    }
}

fn head(dst: Mac, src: Mac, tag: Option<Tag>) -> Head {
    Head {
        dst,
        src,
        tag,
        kind: 0x88B5,
        body: 14,
    }
}

fn tag(vid: u16) -> Tag {
    Tag {
        pcp: 5,
        dei: false,
        vid,
    }
}

/// Ports 1 and 2 on the chip, ports 3 and 4 in software.
fn domains(rt: &impl Abort) -> Domains {
    let mut domains = Domains::make();
    domains.set(port(rt, 1), dom(rt, 1));
    domains.set(port(rt, 2), dom(rt, 1));
    domains.set(port(rt, 3), Dom::SOFTWARE);
    domains.set(port(rt, 4), Dom::SOFTWARE);
    domains
}

fn apply(rt: &impl Abort, table: &mut SoftTables, change: &Change) {
    assert!(rt; table.fits(change));
    table.apply(change);
}

/// Stations, their ports, and the kinds of their entries.
const ENTRIES: &[(u16, u8, Kind)] = &[
    (0x0A, 2, Kind::Static),
    (0x0B, 3, Kind::Learned),
    (0x0C, 1, Kind::Extern),
    (0x0D, 0, Kind::Local),
];

/// The port comes up, forwards, and is a member of VLAN 1, which is its PVID; port 3 gets its frames tagged.
fn open(rt: &impl Abort, table: &mut SoftTables, port: Port) {
    apply(rt, table, &Change::PortUp(port));
    apply(rt, table, &Change::SetState(port, FORWARDING));
    let vlan = Change::VlanAdd {
        port,
        vid: Vid::DEFAULT,
        untagged: port.number() != 3,
        pvid: true,
    };
    apply(rt, table, &vlan);
}

fn put(rt: &impl Abort, table: &mut SoftTables, last: u16, port: Port, kind: Kind) {
    let entry = Change::AddrPut {
        vid: Vid::DEFAULT,
        mac: station(last),
        port,
        kind,
    };
    apply(rt, table, &entry);
}

/// Ports 1 to 4 are open. Address A is at port 2, B at port 3, C at port 1, and D is the host's.
fn four_ports(rt: &impl Abort, alloc: Global) -> SoftTables {
    let mut table = SoftTables::make(alloc).expect(rt, "memory");
    for number in 1..5 {
        open(rt, &mut table, port(rt, number));
    }
    for (last, number, kind) in ENTRIES {
        put(rt, &mut table, *last, port(rt, *number), *kind);
    }
    table
}

/// What is expected of a frame to the address that comes by the port, with this VID in its tag.
type Row = (
    u8,
    To,
    Option<u16>,
    Class,
    Option<u16>,
    &'static [u8],
    &'static [u8],
);

fn assert_row(rt: &impl Abort, table: &SoftTables, domains: &Domains, row: &Row) {
    let (number, to, tagged, class, vid, ports, untagged) = *row;
    let head = head(address(to), station(0x0E), tagged.map(tag));
    let verdict = table.decide(port(rt, number), &head, &McastMsg::Plain, domains);
    assert_same(rt, &verdict.class, &class, "the class");
    assert_same(rt, &verdict.vid.map(Vid::number), &vid, "the VLAN");
    assert_ports(rt, verdict.ports, ports);
    assert_ports(rt, verdict.untagged, untagged);
}

fn assert_rows(rt: &impl Abort, table: &SoftTables, rows: &[Row]) {
    let domains = domains(rt);
    for row in rows {
        assert_row(rt, table, &domains, row);
    }
}

const ONE_VLAN: &[Row] = &[
    (1, Station(0x0A), None, Class::Forward, Some(1), &[2], &[2]),
    (1, Station(0x0B), Some(1), Class::Trap, Some(1), &[3], &[]),
    (1, Station(0x0C), Some(0), Class::Drop, Some(1), &[], &[]),
    (1, Station(0x0D), None, Class::Trap, Some(1), &[0], &[0]),
    (
        1,
        Station(0x0F),
        None,
        Class::Copy,
        Some(1),
        &[2, 3, 4],
        &[2, 4],
    ),
    (
        3,
        All,
        None,
        Class::Copy,
        Some(1),
        &[0, 1, 2, 4],
        &[0, 1, 2, 4],
    ),
    (
        4,
        Reserved(0),
        None,
        Class::Copy,
        Some(1),
        &[0, 1, 2, 3],
        &[0, 1, 2],
    ),
    (1, Reserved(1), None, Class::Drop, Some(1), &[], &[]),
    (1, Reserved(2), None, Class::Trap, Some(1), &[0], &[0]),
    (
        1,
        Reserved(0x10),
        None,
        Class::Copy,
        Some(1),
        &[0, 2, 3, 4],
        &[0, 2, 4],
    ),
    (1, Station(0x0A), Some(2), Class::Drop, None, &[], &[]),
    (1, Station(0x0A), Some(4095), Class::Drop, None, &[], &[]),
];

#[test]
fn frames_of_one_vlan(rt: HostRuntime) {
    let table = four_ports(&rt, rt.alloc());
    assert_rows(&rt, &table, ONE_VLAN);
}

const FLAGS_AND_STATES: &[Row] = &[
    (1, Station(0x0A), None, Class::Drop, Some(1), &[], &[]),
    (1, Station(0x0B), None, Class::Trap, Some(1), &[3], &[]),
    (1, All, None, Class::Copy, Some(1), &[0], &[0]),
    (3, All, None, Class::Copy, Some(1), &[0, 1, 2], &[0, 1, 2]),
    (
        3,
        Station(0x0F),
        None,
        Class::Copy,
        Some(1),
        &[1, 2],
        &[1, 2],
    ),
    (4, All, None, Class::Drop, None, &[], &[]),
    (4, Reserved(0), None, Class::Trap, None, &[], &[]),
];

fn set_flags(rt: &impl Abort, table: &mut SoftTables, number: u8, flags: u8) {
    let flags = Flags::new(flags).expect(rt, "flags");
    apply(rt, table, &Change::SetFlags(port(rt, number), flags));
}

/// Ports 1 and 2 are isolated, no flood leaves port 3, and port 4 learns and doesn't forward.
#[test]
fn flags_and_states(rt: HostRuntime) {
    let mut table = four_ports(&rt, rt.alloc());
    set_flags(&rt, &mut table, 1, 31);
    set_flags(&rt, &mut table, 2, 31);
    set_flags(&rt, &mut table, 3, 1);
    apply(&rt, &mut table, &Change::SetState(port(&rt, 4), 2));
    apply(&rt, &mut table, &Change::Stp(true));
    assert_rows(&rt, &table, FLAGS_AND_STATES);
}
