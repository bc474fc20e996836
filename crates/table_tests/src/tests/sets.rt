//! Sets of one word, of four and of five.
ghost use Rattle.std.specs.Prelude.{◌≤◌};

use super::common::assert_same;
use port_sets::PortSet;
use std::process::Abort;

fn assert_members<const W: usize>(rt: &impl Abort, set: PortSet<W>, expected: &[u8]) {
    let mut left = set.iter();
    for n in expected {
        assert_same(rt, &left.next(), &Some(*n), "a member");
    }
    assert_same(rt, &left.next(), &None, "no more members");
    assert_same(rt, &set.first(), &expected.first().copied(), "the first");
    assert_same(
        rt,
        &set.is_empty(),
        &expected.is_empty(),
        "whether it is empty",
    );
}

/// What is the same for every number of words.
fn assert_low_sets<const W: usize>(rt: &impl Abort)
    requires some { 1 ≤ W }
    requires few { W ≤ 5 }
{
    let empty = PortSet::<W>::empty();
    let left = empty.with(63).with(0).with(5);
    let right = empty.with(5).with(6).with(63);
    assert_members(rt, empty, &[]);
    assert_members(rt, left, &[0, 5, 63]);
    assert_members(rt, left.and(right), &[5, 63]);
    assert_members(rt, left.or(right), &[0, 5, 6, 63]);
    assert_members(rt, left.minus(right), &[0]);
    assert_members(rt, left.without(0), &[5, 63]);
    assert_members(rt, left.without(6).without(255), &[0, 5, 63]);
    assert_same(rt, &left.without(0).with(0), &left, "put back");
    let has = [left.has(63), left.has(62), left.has(64), left.has(255)];
    assert_same(rt, &has, &[true, false, false, false], "63 alone");
}

#[test]
fn sets_of_one_of_four_and_of_five_words(rt: HostRuntime) {
    assert_low_sets::<1>(&rt);
    assert_low_sets::<4>(&rt);
    assert_low_sets::<5>(&rt);
}

#[test]
fn members_of_each_of_four_words(rt: HostRuntime) {
    let empty = PortSet::<4>::empty();
    let left = empty.with(255).with(130).with(64).with(3);
    let right = empty.with(64).with(131).with(255);
    assert_members(&rt, left, &[3, 64, 130, 255]);
    assert_members(&rt, left.and(right), &[64, 255]);
    assert_members(&rt, left.or(right), &[3, 64, 130, 131, 255]);
    assert_members(&rt, left.minus(right), &[3, 130]);
    assert_members(&rt, left.without(3).without(64), &[130, 255]);
    let has = [left.has(130), left.has(2), left.has(66), left.has(194)];
    assert_same(&rt, &has, &[true, false, false, false], "130 alone");
}
