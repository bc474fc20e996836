//! Frames by hand.
ghost use Rattle.std.specs.Prelude.{◌<◌, ◌≤◌, length, suc};

use super::common::{assert_text, port, vid};
use br_model::change::{FORWARDING, Flags, Kind};
use br_model::frame::{Head, McastMsg, Tag};
use br_model::numbers::{Mac, Port, Vid};
use chip_pipeline::{Pass, pass};
use chip_tables::{AddressRow, FanRow, Flood, PortRow, Tables, VlanRow};
use port_sets::Ports;
use std::alloc::Global;
use std::process::Abort;

// Stations: one that the chip learned at port 1, one behind port 3, and one that is static at port 2.
const LEARNED: u64 = 0x0200_0000_000A;

const ELSEWHERE: u64 = 0x0200_0000_000B;

const STATIC: u64 = 0x0200_0000_000C;

/// A station without an entry.
const NEW: u64 = 0x0200_0000_000D;

const RESERVED: u64 = 0x0180_C200_000E;

fn mac(rt: &impl Abort, number: u64) -> Mac {
    Mac::from_number(number).expect(rt, "an address")
}

/// Puts an entry of VLAN 1.
fn put(tables: &mut Tables, mac: Mac, row: AddressRow)
    requires { length tables.old.addresses < 3 }
    ensures { length tables.new.addresses ≤ suc (length tables.old.addresses) }
{
    tables.set_address(Vid::DEFAULT, mac, Some(row));
}

/// The row of a station behind the port.
fn entry(port: Port, kind: Kind) -> AddressRow {
    AddressRow {
        port,
        kind,
        pinned: kind == Kind::Static,
    }
}

/// The entries of VLAN 1.
fn with_entries(rt: &impl Abort, alloc: Global) -> Tables {
    let mut tables = Tables::make(alloc).expect(rt, "memory");
    put(
        &mut tables,
        mac(rt, LEARNED),
        entry(port(rt, 1), Kind::Extern),
    );
    put(
        &mut tables,
        mac(rt, ELSEWHERE),
        entry(port(rt, 3), Kind::Learned),
    );
    put(
        &mut tables,
        mac(rt, STATIC),
        entry(port(rt, 2), Kind::Static),
    );
    tables
}

/// Of the ports, which forward and flood, 1 and 2 are the chip's. Reserved addresses are trapped.
fn set_ports(rt: &impl Abort, tables: &mut Tables) {
    for number in 1..4 {
        let row = PortRow {
            up: true,
            state: FORWARDING,
            flags: Flags::DEFAULT,
            pvid: Some(Vid::DEFAULT),
            own: number < 3,
        };
        tables.set_port(port(rt, number), row);
    }
    for trap in 2..16 {
        tables.set_trap(trap, true);
    }
}

/// The row with the chip's ports, and one with those elsewhere.
fn fan(elsewhere: bool) -> FanRow {
    FanRow {
        ports: Ports::from_words([6, 0, 0, 0]),
        isolated: elsewhere,
        plain: elsewhere,
    }
}

/// The rows of a VLAN, whose frames leave port 1 untagged.
fn set_vlan(tables: &mut Tables, vid: Vid, members: u64, elsewhere: bool) {
    let row = VlanRow {
        members: Ports::from_words([members, 0, 0, 0]),
        untagged: Ports::from_words([2, 0, 0, 0]),
    };
    tables.set_vlan(vid, row);
    tables.set_flood(vid, Flood::Unicast, fan(elsewhere));
    tables.set_flood(vid, Flood::Bcast, fan(elsewhere));
}

/// VLAN 1 has the host and ports 1 to 3, VLAN 2 ports 1 and 2.
fn chip(rt: &impl Abort, alloc: Global) -> Tables {
    let mut tables = with_entries(rt, alloc);
    set_ports(rt, &mut tables);
    set_vlan(&mut tables, Vid::DEFAULT, 15, true);
    set_vlan(&mut tables, vid(rt, 2), 6, false);
    tables
}

/// What the chip decides: the class, the ports, those without a tag marked, and whether it reports the source or hits its entry.
fn told(rt: &impl Abort, alloc: Global, pass: &Pass) -> String {
    let mut text = format!(in alloc; "{:?}", pass.class()).expect(rt, "memory");
    for number in pass.ports().iter() {
        append_port(rt, &mut text, number, pass.untagged().has(number));
    }
    if pass.report().is_some() {
        text.push_str(", reported").expect(rt, "memory");
    }
    if pass.hit().is_some() {
        text.push_str(", hit").expect(rt, "memory");
    }
    text
}

fn append_port(rt: &impl Abort, text: &mut String, number: u8, is_untagged: bool) {
    let mark = if is_untagged { "u" } else { "" };
    write!(text, " {number}{mark}").expect(rt, "memory");
}

/// The port of a frame, its destination and source, its VLAN, and what the chip decides.
type Row = (u8, u64, u64, u16, &'static str);

fn head(rt: &impl Abort, dst: u64, src: u64, vid: u16) -> Head {
    let tag = Tag {
        pcp: 0,
        dei: false,
        vid,
    };
    Head {
        dst: mac(rt, dst),
        src: mac(rt, src),
        tag: Some(tag),
        kind: 0x88B5,
        body: 18,
    }
}

fn assert_row(rt: &impl Abort, alloc: Global, tables: &Tables, row: &Row) {
    let (number, dst, src, vid, expected) = *row;
    let head = head(rt, dst, src, vid);
    let pass = pass(tables, port(rt, number), &head, &McastMsg::Plain);
    let told = told(rt, alloc, &pass);
    assert_text(rt, told.as_str(), expected, "what the chip decides");
}

fn assert_rows(rt: &impl Abort, alloc: Global, rows: &[Row]) {
    let tables = chip(rt, alloc);
    for row in rows {
        assert_row(rt, alloc, &tables, row);
    }
}

const TO_ONE_STATION: &[Row] = &[
    (1, STATIC, LEARNED, 1, "Forward 2, hit"),
    (1, LEARNED, NEW, 1, "Drop, reported"),
    (1, ELSEWHERE, NEW, 1, "Trap, reported"),
    (1, STATIC, NEW, 3, "Drop"),
];

const TO_MANY: &[Row] = &[
    // VLAN 2 doesn't know the station, and has no port elsewhere.
    (1, STATIC, LEARNED, 2, "Forward 2, reported"),
    (2, NEW, STATIC, 1, "Copy 1u, hit"),
    (1, Mac::BROADCAST_ADDRESS, STATIC, 1, "Copy 2"),
    (1, RESERVED, NEW, 1, "Trap"),
];

#[test]
fn frames_by_hand(rt: HostRuntime) {
    assert_rows(&rt, rt.alloc(), TO_ONE_STATION);
    assert_rows(&rt, rt.alloc(), TO_MANY);
}
