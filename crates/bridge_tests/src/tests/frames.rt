//! Headers of frames, and frames as they leave.
use super::common::{assert_bytes, assert_same};
use br_model::frame::{FrameFault, Head, Tag};
use br_model::numbers::Vid;
use ether_frames::{dress, parse};
use std::process::Abort;

const UNTAGGED: [u8; 16] = [
    0x02, 0x00, 0x00, 0x00, 0x00, 0x0b, 0x02, 0x00, 0x00, 0x00, 0x00, 0x0a, 0x88, 0xb5, 0x01, 0x02,
];

const PRIORITY_TAGGED: [u8; 20] = [
    0x02, 0x00, 0x00, 0x00, 0x00, 0x0b, 0x02, 0x00, 0x00, 0x00, 0x00, 0x0a, 0x81, 0x00, 0xa0, 0x00,
    0x88, 0xb5, 0x01, 0x02,
];

// Priority 5, drop eligible, VLAN 0x123, and a second tag.
const TAGGED_TWICE: [u8; 22] = [
    0x01, 0x00, 0x5e, 0x01, 0x02, 0x03, 0x02, 0x1a, 0x2b, 0x3c, 0x4d, 0x5e, 0x81, 0x00, 0xb1, 0x23,
    0x81, 0x00, 0x00, 0x07, 0x08, 0x00,
];

/// Where the body begins.
fn body(bytes: &[u8]) -> Result<usize, FrameFault> {
    parse(bytes).map(|head| head.body)
}

/// Lengths of frames without a tag, and where their bodies begin.
const PLAIN: &[(usize, Result<usize, FrameFault>)] = &[
    (0, Err(FrameFault::Short)),
    (13, Err(FrameFault::Short)),
    (14, Ok(14)),
    (9022, Ok(14)),
    (9023, Err(FrameFault::Long)),
];

/// The same of frames with a tag.
const TAGGED: &[(usize, Result<usize, FrameFault>)] = &[
    (14, Err(FrameFault::TagShort)),
    (17, Err(FrameFault::TagShort)),
    (18, Ok(18)),
];

#[test]
fn tells_faults_by_length(rt: HostRuntime) {
    for (size, want) in PLAIN {
        let bytes = vec![in rt.alloc(); 0; *size].expect(&rt, "memory");
        assert_same(&rt, &body(&bytes), want, "a frame of zeros");
    }
    for (size, want) in TAGGED {
        let (bytes, _) = PRIORITY_TAGGED.split_at((*size).min(20));
        assert_same(&rt, &body(bytes), want, "a frame with a tag");
    }
}

/// The destination, the source, the type, and where the body begins.
fn assert_head(rt: &impl Abort, head: &Head, dst: u64, src: u64, (kind, body): (u16, usize)) {
    assert_same(rt, &head.dst.number(), &dst, "the destination");
    assert_same(rt, &head.src.number(), &src, "the source");
    assert_same(rt, &(head.kind, head.body), &(kind, body), "type and body");
}

#[test]
fn reads_headers(rt: HostRuntime) {
    let none = parse(&UNTAGGED).expect(&rt, "a frame");
    assert_head(&rt, &none, 0x0200_0000_000b, 0x0200_0000_000a, (0x88b5, 14));
    assert_same(&rt, &none.tag, &None, "no tag");
    let twice = parse(&TAGGED_TWICE).expect(&rt, "a frame");
    assert_head(
        &rt,
        &twice,
        0x0100_5e01_0203,
        0x021a_2b3c_4d5e,
        (0x8100, 18),
    );
    let tag = Tag {
        pcp: 5,
        dei: true,
        vid: 0x123,
    };
    assert_same(&rt, &twice.tag, &Some(tag), "the tag");
}

/// Frames, the VLANs of their tags as they leave, and what leaves.
const DRESSED: &[(&[u8], Option<u16>, &[u8])] = &[
    (&UNTAGGED, None, &UNTAGGED),
    (&PRIORITY_TAGGED, None, &UNTAGGED),
    (
        &PRIORITY_TAGGED,
        Some(10),
        b"\x02\x00\x00\x00\x00\x0b\x02\x00\x00\x00\x00\x0a\x81\x00\xa0\x0a\x88\xb5\x01\x02",
    ),
    (
        &UNTAGGED,
        Some(4094),
        b"\x02\x00\x00\x00\x00\x0b\x02\x00\x00\x00\x00\x0a\x81\x00\x0f\xfe\x88\xb5\x01\x02",
    ),
    (
        &TAGGED_TWICE,
        Some(10),
        b"\x01\x00\x5e\x01\x02\x03\x02\x1a\x2b\x3c\x4d\x5e\x81\x00\xb0\x0a\x81\x00\x00\x07\x08\x00",
    ),
    (
        &TAGGED_TWICE,
        None,
        b"\x01\x00\x5e\x01\x02\x03\x02\x1a\x2b\x3c\x4d\x5e\x81\x00\x00\x07\x08\x00",
    ),
];

#[test]
fn dresses_frames(rt: HostRuntime) {
    for (bytes, vlan, want) in DRESSED {
        let head = parse(bytes).expect(&rt, "a frame");
        let dressed = dress(rt.alloc(), bytes, &head, vlan.and_then(Vid::new));
        let dressed = dressed.expect(&rt, "memory");
        assert_bytes(&rt, dressed.as_slice(), want, "a frame that leaves");
    }
}
