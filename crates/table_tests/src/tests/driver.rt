//! The driver of a chip with one port, beside a port of software.
use super::common::{assert_that, dom, port, vid};
use br_model::change::Change;
use br_model::domains::{Domains, Edition};
use br_model::numbers::{Dom, Port, Vid};
use chip_driver::Driver;
use chip_tables::Flood;
use std::process::Abort;
use switchdev_notify::{deliver, notice_of};

/// The port comes up, and is a member of the VLAN.
fn open(driver: &mut Driver, port: Port, vid: Vid) {
    deliver(driver, &notice_of(&Change::PortUp(port)), Edition::One);
    let vlan = Change::VlanAdd {
        port,
        vid,
        untagged: true,
        pvid: true,
    };
    deliver(driver, &notice_of(&vlan), Edition::One);
}

/// Port 130 is on the chip, port 200 isn't.
fn domains(rt: &impl Abort) -> Domains {
    let mut domains = Domains::make();
    domains.set(port(rt, 130), dom(rt, 1));
    domains.set(port(rt, 200), Dom::SOFTWARE);
    domains
}

#[test]
fn bits_follow_a_foreign_port(rt: HostRuntime) {
    let vid = vid(&rt, 4094);
    let domains = domains(&rt);
    let mut driver = Driver::make(rt.alloc(), dom(&rt, 1), &domains).expect(&rt, "memory");
    let first = driver.tables().flood(Vid::DEFAULT, Flood::Mcast);
    assert_that(&rt, first.plain, "plain at first");
    open(&mut driver, port(&rt, 130), vid);
    open(&mut driver, port(&rt, 200), vid);
    let blocked = driver.tables().flood(vid, Flood::Unicast);
    assert_that(&rt, !blocked.plain, "not plain");
    assert_that(&rt, blocked.ports.has(130), "the chip's port");
    let forwards = Change::SetState(port(&rt, 200), 3);
    deliver(&mut driver, &notice_of(&forwards), Edition::One);
    let row = driver.tables().flood(vid, Flood::Unicast);
    assert_that(&rt, row.plain, "plain");
    assert_that(&rt, row.isolated, "isolated");
}
