//! What snooping learned, with its ends.
ghost use Rattle.std.specs.Prelude.{◌≡◌, IsTrue};
ghost use Rattle.br_model.specs.Table.GroupPairs.{has_room};
ghost use Rattle.br_model.specs.Table.Table.{Table, apply};
ghost use Rattle.br_model.specs.declared.change.Change.TheVariants.{GroupJoin, Router, Querier};
ghost use Rattle.br_model.specs.Control.Ends.{keys};
ghost use Rattle.mdb_snoop.specs.Database.{memberships};

use super::common::{assert_ports, assert_same, assert_that, port, vid};
use br_model::group::Group;
use br_model::numbers::{Port, Vid};
use mdb_snoop::Mdb;
use std::alloc::Global;
use std::process::Abort;

/// 239.1.2.3 and, as a group of version 6, the same number.
const FOUR: Group = Group::V4(0xef01_0203);

const SIX: Group = Group::V6(0xef01_0203);

/// Joins where there is room.
fn join(mdb: &mut Mdb, v: Vid, g: Group, p: Port, end: Option<u64>) -> bool {
    let has_room = mdb.has_room(v, g);
    if has_room {
        mdb.join(v, g, p, end);
    }
    has_room
}

/// Tables that keep no ends keep their groups here too: a member joins without end.
fn group_join(mdb: &mut Mdb, v: Vid, g: Group, p: Port)
    requires { IsTrue (has_room (memberships mdb.old) v g) }
    ensures { (t : Table) → t.groups ≡ memberships mdb.old → (apply t (GroupJoin p v g)).groups ≡ memberships mdb.new }
{
    mdb.join(v, g, p, None);
}

/// And so do their router ports, with an end that they never ask for.
fn router(mdb: &mut Mdb, p: Port, on: bool)
    ensures { (t : Table) → t.routers ≡ keys mdb.old.routers → (apply t (Router p on)).routers ≡ keys mdb.new.routers }
{
    if on {
        mdb.router_seen(p, u64::MAX);
    } else {
        mdb.router_gone(p);
    }
}

/// And their queriers.
fn querier(mdb: &mut Mdb, six: bool, on: bool)
    ensures { (t : Table) → t.queriers ≡ keys mdb.old.queriers → (apply t (Querier six on)).queriers ≡ keys mdb.new.queriers }
{
    if on {
        mdb.querier_seen(six, u64::MAX);
    } else {
        mdb.querier_gone(six);
    }
}

/// The port becomes a member of the group, and a router port.
fn join_without_end(rt: &impl Abort, mdb: &mut Mdb, p: Port) {
    let v = vid(rt, 10);
    assert!(rt; mdb.has_room(v, FOUR));
    group_join(mdb, v, FOUR, p);
    router(mdb, p, true);
}

#[test]
fn tables_without_ends(rt: HostRuntime) {
    let alloc = rt.alloc();
    let mut mdb = Mdb::make(alloc).expect(&rt, "memory");
    join_without_end(&rt, &mut mdb, port(&rt, 1));
    join_without_end(&rt, &mut mdb, port(&rt, 2));
    querier(&mut mdb, true, true);
    router(&mut mdb, port(&rt, 1), false);
    assert_over(&rt, alloc, &mdb, u64::MAX - 1, &[]);
    assert_ports(&rt, mdb.members(vid(&rt, 10), FOUR), &[1, 2]);
    assert_ports(&rt, mdb.routers(), &[2]);
    let queriers = [mdb.querier(false), mdb.querier(true)];
    assert_same(&rt, &queriers, &[false, true], "that of version 6");
}

/// What happens to members of VLAN 10, to router ports and to queriers.
#[derive(Clone, Copy)]
enum Act {
    /// The port joins until then, or without end. There is room.
    Join(Group, u8, Option<u64>),
    Leave(Group, u8, u64),
    /// And whether the port was a member.
    Part(Group, u8, bool),
    RouterSeen(u8, u64),
    RouterGone(u8),
    QuerierSeen(bool, u64),
    QuerierGone(bool),
    Settle,
}

fn apply_act(rt: &impl Abort, mdb: &mut Mdb, act: Act) {
    let v = vid(rt, 10);
    match act {
        Act::Join(g, p, end) => assert!(rt; join(mdb, v, g, port(rt, p), end)),
        Act::Leave(g, p, end) => mdb.leave_soon(v, g, port(rt, p), end),
        Act::Part(g, p, there) => {
            let parted = mdb.part(v, g, port(rt, p));
            assert_same(rt, &parted, &there, "whether it was a member");
        }
        Act::RouterSeen(p, end) => {
            mdb.router_seen(port(rt, p), end);
        }
        Act::RouterGone(p) => {
            mdb.router_gone(port(rt, p));
        }
        Act::QuerierSeen(six, end) => {
            mdb.querier_seen(six, end);
        }
        Act::QuerierGone(six) => {
            mdb.querier_gone(six);
        }
        Act::Settle => mdb.settle(),
    }
}

/// What is seen of them then.
#[derive(Clone, Copy)]
enum Sight {
    /// Whether the port's membership has an end.
    Dynamic(Group, u8, bool),
    /// The membership of the group of version 4 that is over at this moment.
    Over(u64, Option<u8>),
    /// No router's time is over at this moment.
    RoutersStay(u64),
    MayEnd(u64, bool),
    /// The group's only member.
    Alone(Group, u8),
    Pairs(usize),
}

/// A VLAN, a group and a port.
type Member = (u16, Group, u8);

fn assert_member(rt: &impl Abort, member: &(Vid, Group, Port), wanted: &Member) {
    let found = (member.0.number(), member.1, member.2.number());
    assert_same(rt, &found, wanted, "a member");
}

fn assert_members(rt: &impl Abort, members: &[(Vid, Group, Port)], wanted: &[Member]) {
    assert_same(rt, &members.len(), &wanted.len(), "how many members");
    for (member, row) in members.iter().zip(wanted) {
        assert_member(rt, member, row);
    }
}

fn assert_over(rt: &impl Abort, alloc: Global, mdb: &Mdb, now: u64, wanted: &[Member]) {
    let ended = mdb.expire(alloc, now).expect(rt, "memory");
    assert_members(rt, ended.groups.as_slice(), wanted);
}

fn assert_routers_stay(rt: &impl Abort, alloc: Global, mdb: &Mdb, now: u64) {
    let ended = mdb.expire(alloc, now).expect(rt, "memory");
    assert_that(rt, ended.routers.is_empty(), "no router's time is over");
}

fn assert_dynamic(rt: &impl Abort, mdb: &Mdb, g: Group, p: u8, ends: bool) {
    let found = mdb.dynamic(vid(rt, 10), g, port(rt, p));
    assert_same(rt, &found, &ends, "whether it has an end");
}

fn assert_sight(rt: &impl Abort, alloc: Global, mdb: &Mdb, sight: Sight) {
    match sight {
        Sight::Dynamic(g, p, ends) => assert_dynamic(rt, mdb, g, p, ends),
        Sight::Over(now, Some(p)) => assert_over(rt, alloc, mdb, now, &[(10, FOUR, p)]),
        Sight::Over(now, None) => assert_over(rt, alloc, mdb, now, &[]),
        Sight::RoutersStay(now) => assert_routers_stay(rt, alloc, mdb, now),
        Sight::MayEnd(now, may) => assert_same(rt, &mdb.may_end(now), &may, "what may end"),
        Sight::Alone(g, p) => assert_ports(rt, mdb.members(vid(rt, 10), g), &[p]),
        Sight::Pairs(count) => assert_same(rt, &mdb.pairs(), &count, "how many pairs"),
    }
}

/// What happens, and what is seen then.
type Row = (&'static [Act], &'static [Sight]);

/// A report holds to its end, a leave makes the end the smaller one, and a command's membership has none.
const ENDS: &[Row] = &[
    (
        &[Act::Join(FOUR, 1, Some(260_000)), Act::Join(FOUR, 2, None)],
        &[
            Sight::Dynamic(FOUR, 1, true),
            Sight::Dynamic(FOUR, 2, false),
            Sight::Dynamic(SIX, 1, false),
            Sight::Over(259_999, None),
            Sight::Over(260_000, Some(1)),
        ],
    ),
    (
        &[
            Act::Leave(FOUR, 1, 300_000),
            Act::Leave(FOUR, 2, 1),
            Act::Leave(SIX, 2, 1),
        ],
        &[Sight::Over(259_999, None)],
    ),
    (
        &[Act::Leave(FOUR, 1, 2_000)],
        &[Sight::Over(2_000, Some(1))],
    ),
    (
        &[
            Act::Join(FOUR, 1, Some(260_001)),
            Act::Join(FOUR, 2, Some(5)),
        ],
        &[Sight::Over(260_000, None), Sight::Dynamic(FOUR, 2, false)],
    ),
    (
        &[Act::Part(FOUR, 2, true), Act::Part(FOUR, 2, false)],
        &[Sight::Alone(FOUR, 1)],
    ),
    (&[Act::Part(FOUR, 1, true)], &[Sight::Pairs(0)]),
];

/// What may end is known without a look at it, and exactly once settled.
const FIRST_END: &[Row] = &[
    (&[], &[Sight::MayEnd(u64::MAX - 1, false)]),
    (
        &[Act::Join(FOUR, 1, Some(300)), Act::Join(FOUR, 2, None)],
        &[Sight::MayEnd(300, true), Sight::MayEnd(299, false)],
    ),
    (
        &[Act::RouterSeen(2, 200), Act::QuerierSeen(true, 250)],
        &[Sight::MayEnd(200, true), Sight::MayEnd(199, false)],
    ),
    (
        &[Act::RouterGone(2)],
        &[Sight::MayEnd(200, true), Sight::RoutersStay(249)],
    ),
    (
        &[Act::Settle],
        &[Sight::MayEnd(250, true), Sight::MayEnd(249, false)],
    ),
    (
        &[
            Act::QuerierGone(true),
            Act::Leave(FOUR, 1, 100),
            Act::Settle,
        ],
        &[Sight::MayEnd(100, true), Sight::MayEnd(99, false)],
    ),
];

const RUNS: &[&[Row]] = &[ENDS, FIRST_END];

fn assert_row(rt: &impl Abort, alloc: Global, mdb: &mut Mdb, (acts, sights): Row) {
    for act in acts {
        apply_act(rt, mdb, *act);
    }
    for sight in sights {
        assert_sight(rt, alloc, mdb, *sight);
    }
}

fn assert_run(rt: &impl Abort, alloc: Global, rows: &[Row]) {
    let mut mdb = Mdb::make(alloc).expect(rt, "memory");
    for row in rows {
        assert_row(rt, alloc, &mut mdb, *row);
    }
}

#[test]
fn ends_of_memberships(rt: HostRuntime) {
    for rows in RUNS {
        assert_run(&rt, rt.alloc(), rows);
    }
}

/// All of them join until 7.
const JOINED: &[Member] = &[
    (4094, FOUR, Port::LAST),
    (1, SIX, Port::LAST),
    (1, SIX, 0),
    (1, FOUR, Port::LAST),
];

const ASCENDING: &[Member] = &[
    (1, FOUR, Port::LAST),
    (1, SIX, 0),
    (1, SIX, Port::LAST),
    (4094, FOUR, Port::LAST),
];

/// Ports, and their groups in VLANs.
const OF_PORTS: &[(u8, &[(u16, Group)])] = &[
    (Port::LAST, &[(1, FOUR), (1, SIX), (4094, FOUR)]),
    (0, &[(1, SIX)]),
];

fn assert_pair(rt: &impl Abort, pair: &(Vid, Group), wanted: &(u16, Group)) {
    assert_same(rt, &(pair.0.number(), pair.1), wanted, "a group");
}

/// The port's groups in VLANs.
fn assert_of_port(rt: &impl Abort, alloc: Global, mdb: &Mdb, p: u8, wanted: &[(u16, Group)]) {
    let listed = mdb.of_port(alloc, port(rt, p)).expect(rt, "memory");
    let pairs = listed.as_slice();
    assert_same(rt, &pairs.len(), &wanted.len(), "how many groups");
    for (pair, row) in pairs.iter().zip(wanted) {
        assert_pair(rt, pair, row);
    }
}

fn assert_joined(rt: &impl Abort, mdb: &mut Mdb, (v, g, p): Member, end: u64) {
    let joined = join(mdb, vid(rt, v), g, port(rt, p), Some(end));
    assert_that(rt, joined, "there is room");
}

/// Version 4 comes before version 6, and a VLAN before its groups.
#[test]
fn lists_ascend(rt: HostRuntime) {
    let alloc = rt.alloc();
    let mut mdb = Mdb::make(alloc).expect(&rt, "memory");
    for member in JOINED {
        assert_joined(&rt, &mut mdb, *member, 7);
    }
    assert_over(&rt, alloc, &mdb, 7, ASCENDING);
    for (number, wanted) in OF_PORTS {
        assert_of_port(&rt, alloc, &mdb, *number, wanted);
    }
    assert_same(&rt, &mdb.pairs(), &3, "how many pairs");
    assert_ports(&rt, mdb.members(vid(&rt, 1), SIX), &[0, Port::LAST]);
    assert_ports(&rt, mdb.members(vid(&rt, 4094), SIX), &[]);
}

const MANY: Group = Group::V4(0xefff_0000);

/// As many groups as there may be, each with a member, and one of them with all ports but the host as members.
fn join_many(rt: &impl Abort, mdb: &mut Mdb) {
    for group in 0..1024 {
        assert_joined(rt, mdb, (1, Group::V4(0xefff_0000 - group), Port::LAST), 9);
    }
    for number in 1..Port::LAST {
        assert_joined(rt, mdb, (1, MANY, number), 9);
    }
}

fn assert_pairs(rt: &impl Abort, mdb: &Mdb) {
    assert_same(rt, &mdb.pairs(), &1024, "how many pairs");
}

/// There is room for 1,024 pairs, for each port in one of them, and for no more pairs.
#[test]
fn room_for_pairs(rt: HostRuntime) {
    let mut mdb = Mdb::make(rt.alloc()).expect(&rt, "memory");
    let v = vid(&rt, 1);
    join_many(&rt, &mut mdb);
    assert_pairs(&rt, &mdb);
    let another = join(&mut mdb, v, FOUR, Port::HOST, Some(9));
    assert_that(&rt, !another, "no room for another pair");
    let host = join(&mut mdb, v, MANY, Port::HOST, None);
    assert_that(&rt, host, "room for another member");
    let ended = mdb.expire(rt.alloc(), 9).expect(&rt, "memory");
    let members = 1023 + usize::from(Port::LAST);
    assert_same(
        &rt,
        &ended.groups.as_slice().len(),
        &members,
        "how many end",
    );
    assert_that(&rt, mdb.part(v, MANY, Port::HOST), "it was a member");
    assert_pairs(&rt, &mdb);
}
