//! Numbers of ports, VLANs and refusals, editions, and groups in parcels.
use super::common::{assert_same, assert_that, port, vid};
use br_model::change::{Change, Update};
use br_model::domains::Edition;
use br_model::group::Group;
use br_model::numbers::{Port, Vid};
use br_model::parcel::Parcel;
use br_model::steps::Refusal;

/// Numbers, and whether a port has each.
const PORTS: &[(u8, bool)] = &[(0, true), (254, true), (255, false)];

/// The same of VLANs.
const VLANS: &[(u16, bool)] = &[(0, false), (1, true), (4094, true), (4095, false)];

#[test]
fn ports_at_their_borders(rt: HostRuntime) {
    for (number, is_port) in PORTS {
        assert_same(&rt, &Port::new(*number).is_some(), is_port, "a port");
    }
}

#[test]
fn vlans_at_their_borders(rt: HostRuntime) {
    for (number, is_vlan) in VLANS {
        assert_same(&rt, &Vid::new(*number).is_some(), is_vlan, "a VLAN");
    }
}

#[test]
fn refusals_by_number(rt: HostRuntime) {
    for number in 1..=15u32 {
        let found = Refusal::from_number(number).map(Refusal::number);
        assert_same(&rt, &found, &Some(number), "a refusal");
    }
}

/// Members of groups reach a chip at once in edition 1, and by its queue in edition 2.
#[test]
fn the_second_edition_defers_groups(rt: HostRuntime) {
    let defers = [Edition::One.defers_groups(), Edition::Two.defers_groups()];
    assert_same(&rt, &defers, &[false, true], "both editions");
}

const SIX: Group = Group::V6(0xFF05_0000_0000_0001_0000_0000_0000_1234);

fn joins_six(change: &Change) -> bool {
    matches!(change, Change::GroupJoin { group, .. } if *group == SIX)
}

#[test]
fn a_parcel_keeps_both_halves_of_a_group(rt: HostRuntime) {
    let change = Change::GroupJoin {
        port: port(&rt, 3),
        vid: vid(&rt, 7),
        group: SIX,
    };
    let kept = Parcel::of(Update { ticket: 5, change }).update();
    assert_same(&rt, &kept.ticket, &5, "the ticket");
    assert_that(&rt, joins_six(&kept.change), "the group");
}
