//! What software sends to of a marked frame, by hand.
use super::common::{assert_same, dom, port};
use br_model::domains::Domains;
use br_model::numbers::Dom;
use hwdom_marks::{Mark, remaining};
use port_sets::Ports;
use std::process::Abort;

/// The host and port 3 are software's, ports 1 and 2 are on one chip, ports 5 and 254 on another, and port 4 isn't declared.
fn declared(rt: &impl Abort) -> Domains {
    let mut domains = Domains::make();
    domains.set(port(rt, 1), dom(rt, 1));
    domains.set(port(rt, 2), dom(rt, 1));
    domains.set(port(rt, 3), Dom::SOFTWARE);
    domains.set(port(rt, 5), dom(rt, 4));
    domains.set(port(rt, 254), dom(rt, 4));
    domains
}

/// Bit n of the first word stands for port n, and bit n of the second for port 192 + n.
fn set(words: [u64; 2]) -> Ports {
    Ports::from_words([words[0], 0, 0, words[1]])
}

/// The place of port 254 in the second word.
const LAST: u64 = 1 << 62;

/// Ports, the domain of the mark, and the ports that are left.
type Row = ([u64; 2], Option<u8>, [u64; 2]);

const ROWS: &[Row] = &[
    ([0b11111, 0], None, [0b11111, 0]),
    ([0b11111, 0], Some(1), [0b11001, 0]),
    ([0b11111, 0], Some(0), [0b10110, 0]),
    ([0b00110, 0], Some(1), [0, 0]),
    ([0b11000, 0], Some(1), [0b11000, 0]),
    ([0b101100, LAST], Some(1), [0b101000, LAST]),
    ([0b101100, LAST], Some(4), [0b001100, 0]),
    ([0b101100, LAST], Some(0), [0b100100, LAST]),
    ([0, 0], Some(1), [0, 0]),
];

fn mark(rt: &impl Abort, number: Option<u8>) -> Option<Mark> {
    match number {
        Some(number) => Some(Mark {
            dom: dom(rt, number),
        }),
        None => None,
    }
}

fn assert_row(rt: &impl Abort, domains: &Domains, (ports, number, left): Row) {
    let found = remaining(set(ports), mark(rt, number), domains);
    assert_same(rt, &found, &set(left), "the ports that are left");
}

#[test]
fn software_leaves_out_the_domain_of_the_mark(rt: HostRuntime) {
    let domains = declared(&rt);
    for row in ROWS {
        assert_row(&rt, &domains, *row);
    }
}
