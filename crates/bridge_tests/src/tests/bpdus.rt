//! Messages of the spanning tree, read and written.
ghost use Rattle.std.specs.Prelude.{◌<◌};

use super::common::{assert_bytes, assert_same, assert_that};
use br_model::bpdu::BpduMsg;
use br_model::numbers::Mac;
use ether_frames::{bpdu_read, bpdu_write};
use std::alloc::Global;
use std::process::Abort;

// Of the root 8000.020000000000, from its port 2, and without padding.
const OF_ROOT: [u8; 52] =
    *b"\x01\x80\xc2\x00\x00\x00\x02\x00\x00\x00\x00\x00\x00\x26\x42\x42\x03\x00\x00\x00\x00\x81\x80\x00\x02\x00\x00\x00\x00\x00\x00\x00\x00\x0a\x80\x00\x02\x00\x00\x00\x00\x01\x80\x02\x01\x00\x14\x00\x02\x00\x0f\x00";

const NOTIFICATION: [u8; 21] =
    *b"\x01\x80\xc2\x00\x00\x00\x02\x00\x00\x00\x00\x00\x00\x07\x42\x42\x03\x00\x00\x00\x80";

fn of_root() -> BpduMsg {
    BpduMsg::Config {
        flags: 0x81,
        root: 0x8000_0200_0000_0000,
        cost: 10,
        bridge: 0x8000_0200_0000_0001,
        port: 0x8002,
        age: 256,
        max: 5120,
        hello: 512,
        delay: 3840,
    }
}

// The frame with another byte at this place.
fn with_byte<const N: usize>(frame: [u8; N], place: usize, byte: u8) -> [u8; N]
    requires { place < N }
{
    let mut other = frame;
    other[place] = byte;
    other
}

fn assert_read(rt: &impl Abort, frame: &[u8], wanted: Option<BpduMsg>, what: &str) {
    assert_same(rt, &bpdu_read(frame), &wanted, what);
}

#[test]
fn reads_messages(rt: HostRuntime) {
    assert_read(&rt, &OF_ROOT, Some(of_root()), "the root's");
    assert_read(&rt, &NOTIFICATION, Some(BpduMsg::Tcn), "a notification");
    let of_version_2 = with_byte(OF_ROOT, 19, 2);
    assert_read(&rt, &of_version_2, Some(of_root()), "version 2");
}

/// What the root's message with another byte at a place isn't or has.
const OTHERS: &[(&str, usize, u8)] = &[
    ("another address", 5, 1),
    ("a length below a message's", 13, 37),
    ("a length beyond the frame", 13, 39),
    ("a type field", 12, 0x08),
    ("another access point", 14, 0xaa),
    ("another control field", 16, 0x13),
    ("another protocol", 18, 1),
    ("another type", 20, 2),
];

#[test]
fn reads_nothing_else(rt: HostRuntime) {
    for (what, place, byte) in OTHERS {
        let place = *place;
        assert!(rt; place < 52);
        assert_read(&rt, &with_byte(OF_ROOT, place, *byte), None, what);
    }
    assert_read(&rt, &OF_ROOT[..51], None, "a byte less");
    assert_read(&rt, &NOTIFICATION[..20], None, "a byte less");
    assert_read(&rt, &with_byte(NOTIFICATION, 13, 6), None, "a shorter one");
    assert_read(&rt, &[], None, "no bytes");
}

/// A message is written with padding of zeros to 60 bytes.
fn assert_written(rt: &impl Abort, alloc: Global, message: &BpduMsg, wanted: &[u8]) {
    let own = Mac::new([2, 0, 0, 0, 0, 0]);
    let frame = bpdu_write(alloc, own, message).expect(rt, "memory");
    assert_same(rt, &frame.len(), &60, "its length");
    let (bytes, padding) = frame.as_slice().split_at(wanted.len().min(frame.len()));
    assert_bytes(rt, bytes, wanted, "the message");
    assert_that(rt, padding.iter().all(|byte| *byte == 0), "the padding");
}

#[test]
fn writes_messages(rt: HostRuntime) {
    assert_written(&rt, rt.alloc(), &of_root(), &OF_ROOT);
    assert_written(&rt, rt.alloc(), &BpduMsg::Tcn, &NOTIFICATION);
}
