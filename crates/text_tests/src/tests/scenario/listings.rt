//! Tables with their listings.
use super::roster_of;
use crate::tests::common::{assert_text, port, vid};
use br_model::change::{Change, Kind};
use br_model::group::Group;
use br_model::listing::Listing;
use br_model::numbers::Mac;
use br_model::plain::table::Table;
use scenario_text::list;
use std::alloc::Global;
use std::process::Abort;

const DECLARATIONS: &[&str] = &["scenario 1", "port 9 b soft", "port 2 a soft"];

const FDB: &str = "\
02:00:00:00:00:0c dev host vlan 1 local
02:00:00:00:00:0d dev a vlan 1 static
02:00:00:00:00:0b dev b vlan 2 extern
end
";

const VLAN: &str = "\
host 1 untagged
host 2 pvid
a 1 untagged
a 5 pvid
b 1 pvid untagged
b 2
end
";

const MDB: &str = "\
dev a grp 239.1.2.3 vlan 1
dev b grp 239.1.2.3 vlan 1
dev b grp ff0e:0000:0000:0000:0000:0000:0000:0001 vlan 1
dev host grp 239.1.2.3 vlan 2
dev b grp 239.1.2.3 vlan 2
end
";

/// Ports in VLANs, whether their frames leave without a tag, and whether that is the PVID.
const MEMBERS: &[(u8, u16, bool, bool)] = &[
    (9, 1, true, true),
    (2, 1, true, true),
    (9, 2, false, false),
    (0, 2, false, true),
    (2, 5, false, true),
];

fn add_member(rt: &impl Abort, table: &mut Table, row: &(u8, u16, bool, bool)) {
    let (number, vlan, untagged, pvid) = *row;
    let change = Change::VlanAdd {
        port: port(rt, number),
        vid: vid(rt, vlan),
        untagged,
        pvid,
    };
    table.apply(&change).expect(rt, "memory");
}

/// The last bytes of addresses, their VLANs, ports and kinds.
const ADDRESSES: &[(u8, u16, u8, Kind)] = &[
    (0x0B, 2, 9, Kind::Extern),
    (0x0D, 1, 2, Kind::Static),
    (0x0C, 1, 0, Kind::Local),
];

fn add_address(rt: &impl Abort, table: &mut Table, row: &(u8, u16, u8, Kind)) {
    let (last, vlan, number, kind) = *row;
    let change = Change::AddrPut {
        vid: vid(rt, vlan),
        mac: Mac::new([2, 0, 0, 0, 0, last]),
        port: port(rt, number),
        kind,
    };
    table.apply(&change).expect(rt, "memory");
}

const FOUR: Group = Group::V4(0xEF01_0203);

const SIX: Group = Group::V6(0xFF0E_0000_0000_0000_0000_0000_0000_0001);

/// Ports, VLANs and groups.
const GROUPS: &[(u8, u16, Group)] = &[
    (9, 1, SIX),
    (9, 1, FOUR),
    (2, 1, FOUR),
    (9, 2, FOUR),
    (0, 2, FOUR),
];

fn add_group(rt: &impl Abort, table: &mut Table, row: &(u8, u16, Group)) {
    let (number, vlan, group) = *row;
    let change = Change::GroupJoin {
        port: port(rt, number),
        vid: vid(rt, vlan),
        group,
    };
    table.apply(&change).expect(rt, "memory");
}

/// Entries of all orders.
fn table(rt: &impl Abort, alloc: Global) -> Table {
    let mut table = Table::start(alloc).expect(rt, "memory");
    for row in MEMBERS {
        add_member(rt, &mut table, row);
    }
    for row in ADDRESSES {
        add_address(rt, &mut table, row);
    }
    for row in GROUPS {
        add_group(rt, &mut table, row);
    }
    table
}

const LISTINGS: &[(Listing, &str)] = &[
    (Listing::Fdb, FDB),
    (Listing::Vlan, VLAN),
    (Listing::Mdb, MDB),
];

#[test]
fn listings_ascend(rt: HostRuntime) {
    let alloc = rt.alloc();
    let table = table(&rt, alloc);
    let roster = roster_of(&rt, alloc, DECLARATIONS);
    for (listing, want) in LISTINGS {
        let text = list(alloc, *listing, &table, &roster).expect(&rt, "memory");
        assert_text(&rt, text.as_str(), want, "a listing");
    }
}
