//! Changes and frames by chance.
mod both;
mod chance;
mod tally;

use both::Both;
use br_model::domains::Edition;
use chance::Chance;
use std::alloc::Global;
use std::process::Abort;
use tally::Tally;

/// How many changes and frames there are.
const ROUNDS: u32 = 20_000;

/// A change, which each chip and its software get, and a frame that comes by a port of one of the chips, again and again. Of what
/// is deferred each chip has as much as its turns have brought.
fn assert_alike(rt: &impl Abort, alloc: Global, edition: Edition) {
    let mut chips = both::each_chip(rt, alloc, edition);
    both::open(rt, &mut chips);
    let mut chance = Chance::first();
    let mut tally = Tally::first();
    for _ in 0..ROUNDS {
        both::accept(rt, &mut chips, &chance.change(rt));
        let port = chance.chip_port(rt);
        let both = &mut chips[both::place_of(port)];
        both.turn(rt);
        let head = chance.head(rt);
        let class = both.assert_alike(rt, port, &head, &chance.message());
        tally.count(class, &head);
    }
    tally.assert_often(rt);
}

#[test]
fn four_chips_and_software_decide_alike(rt: HostRuntime) {
    assert_alike(&rt, rt.alloc(), Edition::One);
    assert_alike(&rt, rt.alloc(), Edition::Two);
}
