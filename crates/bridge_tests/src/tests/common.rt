//! What these tests share: numbers as their types, and comparisons that stop a test.
ghost use Rattle.std.specs.Prelude.{◌≡◌};

use br_model::numbers::{Port, Vid};
use std::fmt::Debug;
use std::process::Abort;

pub(crate) fn port(rt: &impl Abort, number: u8) -> Port
    ensures { result ≡ number }
{
    Port::new(number).expect(rt, "a port")
}

pub(crate) fn vid(rt: &impl Abort, number: u16) -> Vid {
    Vid::new(number).expect(rt, "a VLAN")
}

pub(crate) fn assert_same<T: PartialEq + Debug>(rt: &impl Abort, found: &T, wanted: &T, at: &str) {
    assert_eq!(rt; found, wanted, "at {at}");
}

pub(crate) fn assert_bytes(rt: &impl Abort, found: &[u8], wanted: &[u8], at: &str) {
    assert_eq!(rt; found, wanted, "at {at}");
}

pub(crate) fn assert_that(rt: &impl Abort, holds: bool, at: &str) {
    assert!(rt; holds, "at {at}");
}
