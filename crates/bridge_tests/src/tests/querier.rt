//! The queries that a querier sends, when it sends them, and to whom it yields.
use super::common::{assert_bytes, assert_same};
use br_model::numbers::Mac;
use ether_frames::parse;
use mcast_querier::{Querier, asker};
use std::alloc::Global;
use std::process::Abort;

// 10.0.0.9, 10.0.0.10 and fe80::9
const NINE: u32 = 0x0A00_0009;

const TEN: u32 = 0x0A00_000A;

const NINE_SIX: u128 = 0xFE80_0000_0000_0000_0000_0000_0000_0009;

const FOUR_BY_NINE: &[u8] =
    b"\x01\x00\x5e\x00\x00\x01\x02\x00\x00\x00\x00\x01\x08\x00\x46\xc0\x00\x20\x00\x00\x40\x00\x01\x02\xfa\x0d\x0a\x00\x00\x09\xe0\x00\x00\x01\x94\x04\x00\x00\x11\x64\xee\x9b\x00\x00\x00\x00";

const SIX: &[u8] =
    b"\x33\x33\x00\x00\x00\x01\x02\x00\x00\x00\x00\x01\x86\xdd\x60\x00\x00\x00\x00\x20\x00\x01\xfe\x80\x00\x00\x00\x00\x00\x00\x00\x00\x00\x00\x00\x00\x00\x09\xff\x02\x00\x00\x00\x00\x00\x00\x00\x00\x00\x00\x00\x00\x00\x01\x3a\x00\x05\x02\x00\x00\x01\x00\x82\x00\x59\x0f\x27\x10\x00\x00\x00\x00\x00\x00\x00\x00\x00\x00\x00\x00\x00\x00\x00\x00\x00\x00";

// From another host at 10.0.0.9, without options.
const HEARD_NINE: &[u8] =
    b"\x01\x00\x5e\x00\x00\x01\x02\x00\x00\x00\x00\x0e\x08\x00\x45\x00\x00\x1c\x00\x00\x00\x00\x01\x02\xcf\xd6\x0a\x00\x00\x09\xe0\x00\x00\x01\x11\x64\xee\x9b\x00\x00\x00\x00";

/// A query of these bytes, which asks by this address.
fn assert_query(rt: &impl Abort, query: &[u8], bytes: &[u8], address: u128) {
    assert_bytes(rt, query, bytes, "a query");
    let head = parse(query).expect(rt, "a frame");
    assert_same(rt, &asker(query, &head), &Some(address), "who asks");
}

#[test]
fn queries_are_written(rt: HostRuntime) {
    let mut querier = Querier::make(Mac::FIRST_OWN, NINE, NINE_SIX);
    let queries = querier.tick(rt.alloc(), 0).expect(&rt, "memory");
    assert!(rt; queries.len() == 2);
    let four = queries.as_slice()[0].as_slice();
    let six = queries.as_slice()[1].as_slice();
    assert_query(&rt, four, FOUR_BY_NINE, u128::from(NINE));
    assert_query(&rt, six, SIX, NINE_SIX);
}

/// How many queries leave at this moment.
fn assert_due(rt: &impl Abort, alloc: Global, querier: &mut Querier, now: u64, count: usize) {
    assert!(rt; now < 1 << 53);
    let queries = querier.tick(alloc, now).expect(rt, "memory");
    assert_same(rt, &(now, queries.len()), &(now, count), "a moment");
}

/// Moments, and how many queries leave then.
const MOMENTS: &[(u64, usize)] = &[(0, 2), (31_249, 0), (31_250, 2), (156_249, 0), (156_250, 2)];

#[test]
fn queries_are_due(rt: HostRuntime) {
    let mut querier = Querier::make(Mac::FIRST_OWN, NINE, NINE_SIX);
    for (now, count) in MOMENTS {
        assert_due(&rt, rt.alloc(), &mut querier, *now, *count);
    }
}

/// It hears the querier at 10.0.0.9.
fn hear_nine(rt: &impl Abort, querier: &mut Querier) {
    let head = parse(HEARD_NINE).expect(rt, "a frame");
    querier.heard(HEARD_NINE, &head, 0);
}

/// It asks by 10.0.0.10 again once it hasn't heard the other for 255 seconds.
#[test]
fn a_lower_address_is_yielded_to(rt: HostRuntime) {
    let alloc = rt.alloc();
    let mut ten = Querier::make(Mac::FIRST_OWN, TEN, NINE_SIX);
    hear_nine(&rt, &mut ten);
    assert_due(&rt, alloc, &mut ten, 1000, 1);
    let queries = ten.tick(alloc, 255_000).expect(&rt, "memory");
    assert!(rt; queries.len() == 2);
    let four = queries.as_slice()[0].as_slice();
    let checksum = four.get(24..26).expect(&rt, "a checksum");
    assert_bytes(&rt, checksum, &[0xfa, 0x0c], "its checksum");
    let mut nine = Querier::make(Mac::FIRST_OWN, NINE, NINE_SIX);
    hear_nine(&rt, &mut nine);
    assert_due(&rt, alloc, &mut nine, 1000, 2);
}
