//! Memberships by hand, and the same calls in the plain table of br_model.
use super::common::{assert_ports, assert_same, assert_that, port, vid};
use br_model::change::Change;
use br_model::numbers::{Port, Vid};
use br_model::plain::table::Table;
use std::alloc::Global;
use std::process::Abort;
use vlan_groups::VlanTable;
use vlan_groups::joined::Joined;

fn assert_vids(rt: &impl Abort, vids: &[Vid], expected: &[u16]) {
    assert_same(rt, &vids.len(), &expected.len(), "how many VLANs");
    for (vid, number) in vids.iter().zip(expected) {
        assert_same(rt, &vid.number(), number, "a VLAN");
    }
}

/// A call on the port and the VLAN, and whether it is taken.
#[derive(Clone, Copy)]
enum Act {
    /// Whether the VLAN's frames leave untagged, and whether it is the PVID.
    Add(u8, u16, bool, bool, bool),
    Del(u8, u16, bool),
}

fn apply_act(rt: &impl Abort, table: &mut VlanTable, act: Act) {
    match act {
        Act::Add(p, v, untagged, pvid, taken) => {
            let added = table.add(port(rt, p), vid(rt, v), untagged, pvid);
            assert_same(rt, &added.is_ok(), &taken, "an addition");
        }
        Act::Del(p, v, taken) => {
            let deleted = table.del(port(rt, p), vid(rt, v));
            assert_same(rt, &deleted.is_ok(), &taken, "a deletion");
        }
    }
}

/// What a table has.
#[derive(Clone, Copy)]
enum Sight {
    /// The members of the VLAN.
    Ports(u16, &'static [u8]),
    /// Those that its frames leave untagged.
    UntaggedPorts(u16, &'static [u8]),
    Pvid(u8, Option<u16>),
    /// The VLANs of the port.
    Vids(u8, &'static [u16]),
    Member(u8, u16),
    /// Whether the VLAN's frames leave the port untagged.
    Untagged(u8, u16, bool),
}

fn assert_pvid(rt: &impl Abort, table: &VlanTable, port: Port, wanted: Option<u16>) {
    assert_same(rt, &table.pvid(port).map(Vid::number), &wanted, "the PVID");
}

fn assert_vids_of(rt: &impl Abort, alloc: Global, table: &VlanTable, port: Port, wanted: &[u16]) {
    let listed = table.vids_of(alloc, port).expect(rt, "memory");
    assert_vids(rt, listed.as_slice(), wanted);
}

fn assert_sight(rt: &impl Abort, alloc: Global, table: &VlanTable, sight: Sight) {
    match sight {
        Sight::Ports(v, ports) => assert_ports(rt, table.ports_of(vid(rt, v)), ports),
        Sight::UntaggedPorts(v, ports) => assert_ports(rt, table.untagged_of(vid(rt, v)), ports),
        Sight::Pvid(p, pvid) => assert_pvid(rt, table, port(rt, p), pvid),
        Sight::Vids(p, vids) => assert_vids_of(rt, alloc, table, port(rt, p), vids),
        Sight::Member(p, v) => assert_that(rt, table.member(port(rt, p), vid(rt, v)), "a member"),
        Sight::Untagged(p, v, untagged) => {
            let found = table.untagged(port(rt, p), vid(rt, v));
            assert_same(rt, &found, &untagged, "whether untagged");
        }
    }
}

/// What happens, and what the table has then.
type Row = (&'static [Act], &'static [Sight]);

fn assert_row(rt: &impl Abort, alloc: Global, table: &mut VlanTable, (acts, sights): Row) {
    for act in acts {
        apply_act(rt, table, *act);
    }
    for sight in sights {
        assert_sight(rt, alloc, table, *sight);
    }
}

/// A run begins with a table where the host is in VLAN 1.
fn assert_run(rt: &impl Abort, alloc: Global, rows: &[Row]) {
    let mut table = VlanTable::make(alloc).expect(rt, "memory");
    for row in rows {
        assert_row(rt, alloc, &mut table, *row);
    }
}

/// Ports 1 and 254 are in VLANs 1 and 4094. The PVID of port 1 is 1, that of port 254 is 4094.
const TWO_PORTS: &[Act] = &[
    Act::Add(1, 1, true, true, true),
    Act::Add(254, 4094, false, true, true),
    Act::Add(254, 1, true, false, true),
    Act::Add(1, 4094, true, false, true),
];

const RUNS: &[&[Row]] = &[
    &[(
        &[],
        &[
            Sight::Ports(1, &[0]),
            Sight::UntaggedPorts(1, &[0]),
            Sight::Ports(2, &[]),
            Sight::Pvid(0, None),
            Sight::Vids(0, &[1]),
            Sight::Vids(1, &[]),
        ],
    )],
    // Memberships come.
    &[(
        TWO_PORTS,
        &[
            Sight::Ports(1, &[0, 1, 254]),
            Sight::Ports(4094, &[1, 254]),
            Sight::UntaggedPorts(4094, &[1]),
            Sight::Member(254, 4094),
            Sight::Untagged(254, 4094, false),
            Sight::Pvid(1, Some(1)),
            Sight::Pvid(254, Some(4094)),
            Sight::Vids(254, &[1, 4094]),
        ],
    )],
    // A membership that is there stays.
    &[
        (TWO_PORTS, &[]),
        (
            &[
                Act::Add(254, 4094, true, true, false),
                Act::Add(254, 1, false, true, false),
            ],
            &[
                Sight::Untagged(254, 4094, false),
                Sight::Untagged(254, 1, true),
                Sight::Pvid(254, Some(4094)),
            ],
        ),
    ],
    // Memberships go.
    &[
        (TWO_PORTS, &[]),
        (&[Act::Del(254, 1, true)], &[Sight::Pvid(254, Some(4094))]),
        (&[Act::Del(254, 4094, true)], &[Sight::Pvid(254, None)]),
        (&[Act::Del(254, 4094, false)], &[Sight::Ports(4094, &[1])]),
    ],
    // An untagged membership leaves nothing.
    &[
        (TWO_PORTS, &[]),
        (
            &[
                Act::Del(1, 4094, true),
                Act::Add(1, 4094, false, false, true),
            ],
            &[Sight::UntaggedPorts(4094, &[])],
        ),
    ],
];

#[test]
fn memberships_by_hand(rt: HostRuntime) {
    for rows in RUNS {
        assert_run(&rt, rt.alloc(), rows);
    }
}

/// Ports that are switched on or off in VLANs.
const SWITCHES: &[(u8, u16, bool)] = &[
    (254, 4094, true),
    (1, 63, true),
    (1, 64, true),
    (1, 64, false),
];

/// Whether ports are in VLANs then.
const SWITCHED: &[(u8, u16, bool)] = &[
    (254, 4094, true),
    (1, 4094, false),
    (1, 63, true),
    (1, 64, false),
];

fn assert_switched(rt: &impl Abort, joined: &Joined, (number, vlan, on): (u8, u16, bool)) {
    let found = joined.has(port(rt, number), vid(rt, vlan));
    assert_same(rt, &found, &on, "whether it is in the VLAN");
}

/// Port 254 is in VLAN 4094 alone, and port 1 in VLAN 63 alone.
fn assert_blocks(rt: &impl Abort, alloc: Global, joined: &Joined) {
    let (low, high) = (port(rt, 1), port(rt, 254));
    assert_that(rt, joined.used(high).has(63), "the last block");
    assert_that(rt, !joined.used(low).has(1), "no second block");
    assert_that(rt, joined.block(high, 63).has(62), "in the last block");
    assert_that(rt, joined.block(high, 0).is_empty(), "the first block");
    let vids = joined.vids_of(alloc, low).expect(rt, "memory");
    assert_vids(rt, vids.as_slice(), &[63]);
}

#[test]
fn blocks_have_the_vlans_of_each_port(rt: HostRuntime) {
    let mut joined = Joined::make(rt.alloc()).expect(&rt, "memory");
    for (number, vlan, on) in SWITCHES {
        joined.switch(port(&rt, *number), vid(&rt, *vlan), *on);
    }
    for row in SWITCHED {
        assert_switched(&rt, &joined, *row);
    }
    assert_blocks(&rt, rt.alloc(), &joined);
}

/// A call on one of a few ports and VLANs.
fn call_from(state: u64, port: Port, vid: Vid) -> Change {
    if state >> 62 == 0 {
        Change::VlanDel { port, vid }
    } else {
        Change::VlanAdd {
            port,
            vid,
            untagged: state >> 50 & 1 == 1,
            pvid: state >> 51 & 1 == 1,
        }
    }
}

/// Whether the table takes the call.
fn takes(table: &mut VlanTable, call: &Change) -> bool {
    match *call {
        Change::VlanAdd {
            port,
            vid,
            untagged,
            pvid,
        } => table.add(port, vid, untagged, pvid).is_ok(),
        Change::VlanDel { port, vid } => table.del(port, vid).is_ok(),
        _ => false,
    }
}

/// Both get the call, and the membership that it names is the same in both then.
fn assert_agree(
    rt: &impl Abort,
    table: &mut VlanTable,
    plain: &mut Table,
    call: &Change,
    (port, vid): (Port, Vid),
) {
    let is_deletion = matches!(call, Change::VlanDel { .. });
    let expected = plain.is_member(port, vid) == is_deletion;
    assert_same(rt, &takes(table, call), &expected, "the answer");
    if expected {
        plain.apply(call).expect(rt, "memory");
    }
    let member = plain.is_member(port, vid);
    assert_same(rt, &table.member(port, vid), &member, "the membership");
    let untagged = plain.is_untagged(port, vid);
    assert_same(
        rt,
        &table.untagged(port, vid),
        &untagged,
        "whether untagged",
    );
}

#[test]
fn both_tables_agree(rt: HostRuntime) {
    let mut table = VlanTable::make(rt.alloc()).expect(&rt, "memory");
    let mut plain = Table::start(rt.alloc()).expect(&rt, "memory");
    let mut state = 1u64;
    for _ in 0..2_000 {
        state = state
            .wrapping_mul(6364136223846793005)
            .wrapping_add(1442695040888963407);
        let port = port(&rt, (state >> 33 & 7) as u8 * 36);
        let vid = vid(&rt, (state >> 40 & 7) as u16 + 1);
        let call = call_from(state, port, vid);
        assert_agree(&rt, &mut table, &mut plain, &call, (port, vid));
    }
}
