//! The general queries of a querier on the host.
use super::snooping::QUERY;
use super::starts::SOFT;
use super::{read_row, writes};
use capture_runner::Status;
use std::alloc::Global;
use std::process::Abort;
use std::sync::Wait;
use std::thread::Threads;

/// The queries of hosts at 10.0.0.9, at 10.0.0.10 and at fe80::9, with checksums that were worked out by hand.
const BY_NINE: &str =
    "01005e000001020000000001080046c00020000040000102fa0d0a000009e0000001940400001164ee9b00000000";

const BY_TEN: &str =
    "01005e000001020000000001080046c00020000040000102fa0c0a00000ae0000001940400001164ee9b00000000";

const BY_SIX: &str =
    "33330000000102000000000186dd6000000000200001fe800000000000000000000000000009ff0200000000000000000000000000013a000502000001008200590f2710000000000000000000000000000000000000";

const NINE: &str = "querier 10.0.0.9 fe80:0000:0000:0000:0000:0000:0000:0009";

const TEN: &str = "querier 10.0.0.10 fe80:0000:0000:0000:0000:0000:0000:0009";

/// Runs the words over the scenario. It writes just this.
fn asks(
    rt: &(impl Abort + Threads + Wait + Sync),
    alloc: Global,
    line: &str,
    input: &str,
    wrote: &str,
) {
    writes(
        rt,
        alloc,
        line,
        (input.as_bytes(), &[]),
        (Status::Ok, wrote),
    );
}

const MOMENTS: &str = "scenario 1\nnow 0\nnow 31249\nnow 31250\nnow 156249\nnow 156250\nend\n";

/// Nobody else asks: two queries a quarter of an interval apart, and the next one a whole interval later.
#[test]
fn queries_are_due(rt: HostRuntime) {
    let alloc = rt.alloc();
    let wrote = format!(in alloc;
        "query 0 {BY_NINE}\nquery 0 {BY_SIX}\nquery 31250 {BY_NINE}\nquery 31250 {BY_SIX}\nquery 156250 {BY_NINE}\nquery 156250 {BY_SIX}\nend\n"
    );
    let line = "querier 10.0.0.9 FE80:0000:0000:0000:0000:0000:0000:0009";
    asks(
        &rt,
        alloc,
        line,
        MOMENTS,
        wrote.expect(&rt, "memory").as_str(),
    );
}

/// Three ports of software, and a query from 10.0.0.9; then two moments.
fn heard_nine(rt: &impl Abort, alloc: Global) -> String {
    let text = format!(in alloc; "{SOFT}rx 1 {QUERY}\nserve\nnow 1000\nnow 255000\nend\n");
    read_row(rt, alloc, text.expect(rt, "memory").as_str()).input
}

/// The host at 10.0.0.10 yields to 10.0.0.9 until it hasn't heard it for 255 seconds.
#[test]
fn a_lower_address_asks(rt: HostRuntime) {
    let alloc = rt.alloc();
    let wrote = format!(in alloc;
        "query 1000 {BY_SIX}\nquery 255000 {BY_TEN}\nquery 255000 {BY_SIX}\nend\n"
    );
    asks(
        &rt,
        alloc,
        TEN,
        heard_nine(&rt, alloc).as_str(),
        wrote.expect(&rt, "memory").as_str(),
    );
}

/// The host at 10.0.0.9 doesn't yield to a querier at its own address.
#[test]
fn an_equal_address_is_not_yielded_to(rt: HostRuntime) {
    let alloc = rt.alloc();
    let wrote = format!(in alloc;
        "query 1000 {BY_NINE}\nquery 1000 {BY_SIX}\nquery 255000 {BY_NINE}\nquery 255000 {BY_SIX}\nend\n"
    );
    asks(
        &rt,
        alloc,
        NINE,
        heard_nine(&rt, alloc).as_str(),
        wrote.expect(&rt, "memory").as_str(),
    );
}

/// A refused moment brings no query, and behind a bad line nothing is written but it.
#[test]
fn moments_that_do_not_come(rt: HostRuntime) {
    let alloc = rt.alloc();
    let wrote = format!(in alloc; "query 40000 {BY_NINE}\nquery 40000 {BY_SIX}\nend\n");
    let back = "scenario 1\nnow 40000\nnow 39999\nend\n";
    asks(&rt, alloc, NINE, back, wrote.expect(&rt, "memory").as_str());
    let bogus = b"scenario 1\nnow 0\nbogus\nend\n";
    writes(
        &rt,
        alloc,
        NINE,
        (bogus, &[]),
        (Status::BadLine, "bad 3 word\n"),
    );
}
