//! The forwarding database: entries by hand, their ageing at its limit, and 16,384 of them.
use super::common::{assert_same, port, station, vid};
use br_model::change::Kind;
use br_model::numbers::{Mac, Port, Vid};
use fdb_core::{Entry, Fdb};
use std::alloc::Global;
use std::process::Abort;

/// A VLAN and the number of an address.
type Place = (u16, u16);

fn put(rt: &impl Abort, fdb: &mut Fdb, (vlan, number): Place, entry: Entry) {
    assert!(rt; !fdb.is_full());
    fdb.put(vid(rt, vlan), station(number), entry);
}

fn assert_found(rt: &impl Abort, fdb: &Fdb, (vlan, number): Place, wanted: Option<Entry>) {
    let found = fdb.find(vid(rt, vlan), station(number));
    assert_same(rt, &found, &wanted, "what is found");
}

fn assert_taken(rt: &impl Abort, fdb: &mut Fdb, (vlan, number): Place, wanted: Option<Entry>) {
    let taken = fdb.take(vid(rt, vlan), station(number));
    assert_same(rt, &taken, &wanted, "what is taken");
}

fn assert_counts(rt: &impl Abort, fdb: &Fdb, len: usize, is_full: bool) {
    assert_same(rt, &fdb.len(), &len, "how many there are");
    assert_same(rt, &fdb.is_empty(), &(len == 0), "whether it is empty");
    assert_same(rt, &fdb.is_full(), &is_full, "whether it is full");
}

const OLD: Entry = Entry {
    port: Port::HOST,
    kind: Kind::Local,
    updated: 7,
};

/// A key is the VLAN and the address, and a take leaves the others.
#[test]
fn entries_by_vlan_and_address(rt: HostRuntime) {
    let mut fdb = Fdb::make(rt.alloc(), 2).expect(&rt, "memory");
    put(&rt, &mut fdb, (1, 5), OLD);
    assert_counts(&rt, &fdb, 1, false);
    put(&rt, &mut fdb, (4094, 5), OLD);
    assert_counts(&rt, &fdb, 2, true);
    assert_taken(&rt, &mut fdb, (4094, 6), None);
    assert_taken(&rt, &mut fdb, (4094, 5), Some(OLD));
    assert_found(&rt, &fdb, (4094, 5), None);
    assert_found(&rt, &fdb, (1, 5), Some(OLD));
    assert_counts(&rt, &fdb, 1, false);
}

fn newer(rt: &impl Abort) -> Entry {
    Entry {
        port: port(rt, Port::LAST),
        kind: Kind::Extern,
        updated: u64::MAX,
    }
}

/// A put over an entry takes its place, where there is no room for another one, too.
#[test]
fn an_entry_over_another(rt: HostRuntime) {
    let mut fdb = Fdb::make(rt.alloc(), 1).expect(&rt, "memory");
    put(&rt, &mut fdb, (1, 5), OLD);
    let (low, five) = (vid(&rt, 1), station(5));
    assert!(rt; fdb.find(low, five).is_some());
    fdb.put(low, five, newer(&rt));
    assert_found(&rt, &fdb, (1, 5), Some(newer(&rt)));
    assert_counts(&rt, &fdb, 1, true);
}

/// The VLAN and address of an entry at port 5, its kind, and its moment.
type Row = (Place, Kind, u64);

const ENTRIES: &[Row] = &[
    ((2, 1), Kind::Learned, 100),
    ((1, 9), Kind::Learned, 100),
    ((1, 2), Kind::Static, 0),
    ((1, 3), Kind::Extern, 0),
];

fn put_row(rt: &impl Abort, fdb: &mut Fdb, (place, kind, updated): Row) {
    let port = port(rt, 5);
    put(
        rt,
        fdb,
        place,
        Entry {
            port,
            kind,
            updated,
        },
    );
}

const OVER: &[Place] = &[(1, 9), (2, 1)];

const AT_PORT: &[Place] = &[(1, 2), (1, 3), (1, 9), (2, 1)];

fn assert_key(rt: &impl Abort, key: &(Vid, Mac), (vlan, number): Place) {
    assert_same(rt, &key.0.number(), &vlan, "a VLAN");
    assert_same(rt, &key.1, &station(number), "an address");
}

fn assert_keys(rt: &impl Abort, keys: &[(Vid, Mac)], wanted: &[Place]) {
    assert_same(rt, &keys.len(), &wanted.len(), "how many keys");
    for (key, place) in keys.iter().zip(wanted) {
        assert_key(rt, key, *place);
    }
}

fn assert_expired(rt: &impl Abort, alloc: Global, fdb: &Fdb, now: u64, wanted: &[Place]) {
    let keys = fdb.expired(alloc, now, 300).expect(rt, "memory");
    assert_keys(rt, keys.as_slice(), wanted);
}

fn assert_at(rt: &impl Abort, alloc: Global, fdb: &Fdb, port: Port, wanted: &[Place]) {
    let keys = fdb.entries_of_port(alloc, port).expect(rt, "memory");
    assert_keys(rt, keys.as_slice(), wanted);
}

/// At 400 the hold of 300 is over for what was learned at 100, and at 399 it isn't. Nothing else ends.
#[test]
fn ageing_at_the_limit(rt: HostRuntime) {
    let alloc = rt.alloc();
    let mut fdb = Fdb::make(alloc, 4).expect(&rt, "memory");
    for row in ENTRIES {
        put_row(&rt, &mut fdb, *row);
    }
    assert_expired(&rt, alloc, &fdb, 399, &[]);
    assert_expired(&rt, alloc, &fdb, 400, OVER);
    assert_at(&rt, alloc, &fdb, port(&rt, 5), AT_PORT);
    assert_at(&rt, alloc, &fdb, Port::HOST, &[]);
}

fn learned(number: u16) -> Entry {
    Entry {
        port: Port::HOST,
        kind: Kind::Learned,
        updated: u64::from(number),
    }
}

/// There is room for 16,384 addresses, each is found, and each can be taken.
#[test]
fn all_addresses(rt: HostRuntime) {
    let mut fdb = Fdb::make(rt.alloc(), 16384).expect(&rt, "memory");
    for number in 0..16384u16 {
        put(&rt, &mut fdb, (1, number), learned(number));
    }
    assert_counts(&rt, &fdb, 16384, true);
    for number in 0..16384u16 {
        assert_found(&rt, &fdb, (1, number), Some(learned(number)));
    }
    for number in 0..16384u16 {
        assert_taken(&rt, &mut fdb, (1, number), Some(learned(number)));
        assert_taken(&rt, &mut fdb, (1, number), None);
    }
    assert_counts(&rt, &fdb, 0, false);
}
