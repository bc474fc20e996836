//! What these tests share: numbers as their types, and comparisons that stop a test.
ghost use Rattle.std.specs.Prelude.{◌≡◌};

use br_model::numbers::{Dom, Mac, Port, Vid};
use port_sets::Ports;
use std::fmt::Debug;
use std::process::Abort;

pub(crate) fn port(rt: &impl Abort, number: u8) -> Port
    ensures { result ≡ number }
{
    Port::new(number).expect(rt, "a port")
}

pub(crate) fn vid(rt: &impl Abort, number: u16) -> Vid
    ensures { result ≡ number }
{
    Vid::new(number).expect(rt, "a VLAN")
}

pub(crate) fn dom(rt: &impl Abort, number: u8) -> Dom
    ensures { result ≡ number }
{
    Dom::new(number).expect(rt, "a domain")
}

/// The address 02:00:00:00 and the two bytes of the number.
pub(crate) fn station(number: u16) -> Mac {
    let [high, low] = number.to_be_bytes();
    Mac::new([2, 0, 0, 0, high, low])
}

pub(crate) fn assert_same<T: PartialEq + Debug>(
    rt: &impl Abort,
    found: &T,
    wanted: &T,
    what: &str,
) {
    assert_eq!(rt; found, wanted, "{what}");
}

pub(crate) fn assert_text(rt: &impl Abort, found: &str, wanted: &str, what: &str) {
    assert_eq!(rt; found, wanted, "{what}");
}

pub(crate) fn assert_that(rt: &impl Abort, holds: bool, what: &str) {
    assert!(rt; holds, "{what}");
}

/// The members of the set are just these, ascending.
pub(crate) fn assert_ports(rt: &impl Abort, set: Ports, wanted: &[u8]) {
    let mut left = set.iter();
    for number in wanted {
        assert_same(rt, &left.next(), &Some(*number), "a port");
    }
    assert_same(rt, &left.next(), &None, "no more ports");
}
