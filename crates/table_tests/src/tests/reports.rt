//! Reports and hits by hand.
use super::common::{assert_same, port, station, vid};
use learn_report::{Report, Reports};
use std::process::Abort;

/// A VLAN, the number of an address, and a port.
type Row = (u16, u16, u8);

fn report(rt: &impl Abort, (vlan, address, number): Row) -> Report {
    (vid(rt, vlan), station(address), port(rt, number))
}

fn assert_offer(rt: &impl Abort, reports: &mut Reports, row: Row, taken: bool) {
    let (v, m, p) = report(rt, row);
    assert_same(rt, &reports.offer(v, m, p), &taken, "whether it is taken");
}

/// The oldest is this one, and leaves.
fn assert_next(rt: &impl Abort, reports: &mut Reports, row: Row) {
    let oldest = Some(report(rt, row));
    assert_same(rt, &reports.first(), &oldest, "the first");
    assert_same(rt, &reports.next(), &oldest, "the next");
}

fn assert_none(rt: &impl Abort, reports: &mut Reports) {
    assert_same(rt, &reports.first(), &None, "no first");
    assert_same(rt, &reports.next(), &None, "no next");
}

const OFFERS: &[(Row, bool)] = &[
    ((1, 10, 3), true),
    ((1, 10, 3), false),
    ((2, 10, 3), true),
    ((1, 11, 3), true),
    ((1, 10, 4), true),
    ((2, 10, 3), false),
];

const LEFT: &[Row] = &[(1, 10, 3), (2, 10, 3), (1, 11, 3), (1, 10, 4)];

/// They leave in the order in which they came. An equal one waits once, and may come again when it has left.
#[test]
fn oldest_first_and_none_twice(rt: HostRuntime) {
    let mut reports = Reports::make(rt.alloc()).expect(&rt, "memory");
    assert_none(&rt, &mut reports);
    for (row, taken) in OFFERS {
        assert_offer(&rt, &mut reports, *row, *taken);
    }
    for row in LEFT {
        assert_next(&rt, &mut reports, *row);
    }
    assert_none(&rt, &mut reports);
    assert_offer(&rt, &mut reports, (1, 10, 3), true);
}

/// 256 wait and no more, and one that leaves makes room for one.
#[test]
fn full_at_256(rt: HostRuntime) {
    let mut reports = Reports::make(rt.alloc()).expect(&rt, "memory");
    for address in 0..256 {
        assert_offer(&rt, &mut reports, (1, address, 3), true);
    }
    assert_offer(&rt, &mut reports, (2, 0, 3), false);
    assert_next(&rt, &mut reports, (1, 0, 3));
    assert_offer(&rt, &mut reports, (2, 0, 3), true);
    assert_offer(&rt, &mut reports, (2, 1, 3), false);
}

fn hit(rt: &impl Abort, reports: &mut Reports, vlan: u16, address: u16) {
    let noted = reports.hit(vid(rt, vlan), station(address));
    noted.expect(rt, "memory");
}

/// Whether there is a hit of a VLAN and an address.
type Hit = (u16, u16, bool);

fn assert_hit(rt: &impl Abort, reports: &Reports, (vlan, address, set): Hit) {
    let found = reports.has(vid(rt, vlan), station(address));
    assert_same(rt, &found, &set, "a hit");
}

fn assert_hits(rt: &impl Abort, reports: &Reports, hits: &[Hit]) {
    for hit in hits {
        assert_hit(rt, reports, *hit);
    }
}

const HITS: &[Hit] = &[(1, 10, true), (2, 11, true), (1, 11, false), (2, 10, false)];

const CLEARED: &[Hit] = &[(1, 10, false), (2, 11, false)];

const HIT_AGAIN: &[Hit] = &[(2, 10, true), (1, 10, false)];

/// A hit is that of its VLAN and address, and the reports stay where hits are cleared.
#[test]
fn hits_by_vlan_and_address(rt: HostRuntime) {
    let mut reports = Reports::make(rt.alloc()).expect(&rt, "memory");
    assert_offer(&rt, &mut reports, (1, 10, 3), true);
    hit(&rt, &mut reports, 1, 10);
    hit(&rt, &mut reports, 2, 11);
    hit(&rt, &mut reports, 1, 10);
    assert_hits(&rt, &reports, HITS);
    reports.clear();
    assert_hits(&rt, &reports, CLEARED);
    assert_next(&rt, &mut reports, (1, 10, 3));
    hit(&rt, &mut reports, 2, 10);
    assert_hits(&rt, &reports, HIT_AGAIN);
}
