ghost use Rattle.std.specs.Prelude.{◌<◌, ◌^◌};

use super::common::{assert_same, assert_that, port};
use br_model::bpdu::BpduMsg;
use br_model::numbers::{Mac, Port};
use br_model::tree::TreeEvent;
use port_sets::Ports;
use std::process::Abort;
use stp_core::{Tree, TreeOut};

// Bridges by the last byte of their addresses, at priority 32768; ports by number, at priority 128.
const BRIDGE: u64 = 0x8000_0200_0000_0000;

const PORT: u16 = 0x8000;

#[derive(Clone, Copy)]
enum Event {
    On(bool),
    Up(u8),
    Down(u8),
    /// At this port, that the root is this bridge at this cost, says the port of this bridge.
    Says(u8, u8, u32, u8, u8),
    /// The same from the root itself, with these flags.
    SaysRoot(u8, u8, u8, u8),
    Notifies(u8),
    Now,
    Cost(u8, u16),
    Priority(u16),
    PortPriority(u8, u8),
}

// The moment, the event, and the ports that move, that send a configuration message, and the one that notifies.
type Row = (u64, Event, &'static [u8], &'static [u8], Option<u8>);

fn says(flags: u8, root: u8, cost: u32, sender: u8, port: u8) -> BpduMsg {
    BpduMsg::Config {
        flags,
        root: BRIDGE + u64::from(root),
        cost,
        bridge: BRIDGE + u64::from(sender),
        port: PORT + u16::from(port),
        age: 0,
        max: 5120,
        hello: 512,
        delay: 3840,
    }
}

fn event_of(rt: &impl Abort, event: Event) -> TreeEvent {
    match event {
        Event::On(on) => TreeEvent::Switch(on),
        Event::Up(p) => TreeEvent::Up(port(rt, p)),
        Event::Down(p) => TreeEvent::Down(port(rt, p)),
        Event::Says(p, root, cost, sender, sent_by) => {
            TreeEvent::Message(port(rt, p), says(0, root, cost, sender, sent_by))
        }
        Event::SaysRoot(p, flags, root, sent_by) => {
            TreeEvent::Message(port(rt, p), says(flags, root, 0, root, sent_by))
        }
        Event::Notifies(p) => TreeEvent::Message(port(rt, p), BpduMsg::Tcn),
        Event::Now => TreeEvent::Moment,
        Event::Cost(p, n) => TreeEvent::Cost(port(rt, p), n),
        Event::Priority(n) => TreeEvent::Priority(n),
        Event::PortPriority(p, n) => TreeEvent::PortPriority(port(rt, p), n),
    }
}

fn apply(rt: &impl Abort, tree: &mut Tree, now: u64, event: Event) -> TreeOut
    requires { now < 2 ^ 53 }
{
    tree.act(&event_of(rt, event), now)
}

fn assert_ports(rt: &impl Abort, ports: Ports, wanted: &[u8], at: usize) {
    let mut left = ports.iter();
    for p in wanted {
        assert_same(rt, &(at, left.next()), &(at, Some(*p)), "a row's ports");
    }
    assert_same(rt, &(at, left.next()), &(at, None), "a row's ports");
}

fn assert_row(rt: &impl Abort, tree: &mut Tree, row: &Row, at: usize) {
    let (now, event, moved, config, tcn) = *row;
    assert!(rt; now < 1 << 53);
    let out = apply(rt, tree, now, event);
    assert_ports(rt, out.moved, moved, at);
    assert_ports(rt, out.config, config, at);
    let notifies = out.tcn.map(Port::number);
    assert_same(rt, &(at, notifies), &(at, tcn), "a row's notification");
    if let Event::Now = event {
        assert_that(rt, tree.is_idle(now), "nothing is due then");
    }
}

fn assert_rows(rt: &impl Abort, tree: &mut Tree, rows: &[Row]) {
    let mut at = 0usize;
    for row in rows {
        assert_row(rt, tree, row, at);
        at = at.wrapping_add(1);
    }
}

const TWO_PORTS: &[Row] = &[
    (0, Event::Up(1), &[1], &[], None),
    (0, Event::Up(2), &[2], &[], None),
    (0, Event::On(true), &[1, 2], &[1, 2], None),
];

fn tree_of_two_ports(rt: &impl Abort) -> Tree {
    let mut tree = Tree::make(Mac::new([2, 0, 0, 0, 0, 1]));
    assert_rows(rt, &mut tree, TWO_PORTS);
    tree
}

// The sender's port decides. Then the root falls silent, and this bridge is the root again.
const ONE_ROOT: &[Row] = &[
    (0, Event::SaysRoot(1, 0, 0, 2), &[], &[], None),
    (0, Event::SaysRoot(2, 0, 0, 1), &[1], &[], None),
    (15_000, Event::Now, &[2], &[], None),
    (20_000, Event::Now, &[1], &[1, 2], None),
];

#[test]
fn ports_of_one_root(rt: HostRuntime) {
    let mut tree = tree_of_two_ports(&rt);
    let mut copy = tree.copy();
    assert_rows(&rt, &mut copy, ONE_ROOT);
    assert_rows(&rt, &mut tree, ONE_ROOT);
    let said = tree.last_message(port(&rt, 2));
    assert_same(&rt, &said, &Some(says(1, 1, 0, 1, 2)), "what port 2 said");
}

// What a port of a bridge in a network comes to.
#[derive(Clone, Copy)]
enum Role {
    Root,
    /// It says that the root is this bridge at this cost.
    Designated(u8, u32),
    Blocked,
}

// A bridge, its port and the cost of that port's path, what the port hears of the bridge that speaks on its LAN (root, cost,
// bridge, port), and what it comes to.
type PortRow = (u8, u8, u16, Option<(u8, u32, u8, u8)>, Role);

fn bring_up(rt: &impl Abort, tree: &mut Tree, p: u8, cost: u16) {
    tree.port_up(port(rt, p), 0);
    tree.set_cost(port(rt, p), cost, 0);
}

fn hear(rt: &impl Abort, tree: &mut Tree, p: u8, (root, cost, sender, sent_by): (u8, u32, u8, u8)) {
    let says = Event::Says(p, root, cost, sender, sent_by);
    apply(rt, tree, 0, says);
}

// The bridge of these rows, once it has heard what its ports hear.
fn bridge_of(rt: &impl Abort, own: u8, rows: &[PortRow]) -> Tree {
    let mut tree = Tree::make(Mac::new([2, 0, 0, 0, 0, own]));
    for (bridge, p, cost, _, _) in rows {
        if *bridge == own {
            bring_up(rt, &mut tree, *p, *cost);
        }
    }
    tree.switch(true, 0);
    for (bridge, p, _, heard, _) in rows {
        if let (true, Some(heard)) = (*bridge == own, *heard) {
            hear(rt, &mut tree, *p, heard);
        }
    }
    tree.tick(1000);
    tree
}

fn said(rt: &impl Abort, tree: &Tree, p: u8) -> Option<(u64, u32, u64, u16)> {
    let p = port(rt, p);
    tree.last_message(p)?;
    match tree.message(p) {
        BpduMsg::Config {
            root,
            cost,
            bridge,
            port,
            ..
        } => Some((root, cost, bridge, port)),
        BpduMsg::Tcn => None,
    }
}

// The state of a port: 1 is listening, 4 is blocking.
fn assert_state(rt: &impl Abort, tree: &Tree, (own, p): (u8, u8), state: u8) {
    let found = (own, p, tree.state(port(rt, p)));
    assert_same(rt, &found, &(own, p, state), "bridge, port and state");
}

fn assert_designated(rt: &impl Abort, tree: &Tree, (own, p): (u8, u8), root: u8, cost: u32) {
    let wanted = (
        BRIDGE + u64::from(root),
        cost,
        BRIDGE + u64::from(own),
        PORT + u16::from(p),
    );
    assert_same(rt, &said(rt, tree, p), &Some(wanted), "what a port says");
}

fn assert_role(rt: &impl Abort, tree: &Tree, at: (u8, u8), role: Role) {
    match role {
        Role::Root => assert_state(rt, tree, at, 1),
        Role::Designated(root, cost) => {
            assert_state(rt, tree, at, 1);
            assert_designated(rt, tree, at, root, cost);
        }
        Role::Blocked => assert_state(rt, tree, at, 4),
    }
}

fn assert_network(rt: &impl Abort, rows: &[PortRow]) {
    for (own, p, _, _, role) in rows {
        let tree = bridge_of(rt, *own, rows);
        assert_role(rt, &tree, (*own, *p), *role);
    }
}

const NETWORKS: &[&[PortRow]] = &[
    // At the third bridge the root decides, the cost, the bridge, its port; and then the own port, where both are on one LAN.
    &[
        (3, 1, 100, Some((2, 0, 2, 1)), Role::Designated(1, 110)),
        (3, 2, 100, Some((1, 10, 4, 1)), Role::Root),
    ],
    &[
        (3, 1, 100, Some((1, 10, 2, 1)), Role::Blocked),
        (3, 2, 89, Some((1, 20, 2, 2)), Role::Root),
    ],
    &[
        (3, 1, 100, Some((1, 10, 4, 1)), Role::Blocked),
        (3, 2, 90, Some((1, 20, 2, 1)), Role::Root),
    ],
    &[
        (3, 1, 100, Some((1, 10, 2, 2)), Role::Blocked),
        (3, 2, 100, Some((1, 10, 2, 1)), Role::Root),
    ],
    &[
        (3, 1, 100, Some((1, 10, 2, 1)), Role::Root),
        (3, 2, 100, Some((1, 10, 2, 1)), Role::Blocked),
    ],
    // Each bridge is on a first LAN; bridges 1 and 2 are on a second one; bridge 2 is on a third one, and bridge 3 twice.
    &[
        (1, 1, 100, Some((1, 100, 3, 1)), Role::Designated(1, 0)),
        (1, 2, 100, None, Role::Designated(1, 0)),
        (2, 1, 100, Some((1, 0, 1, 1)), Role::Root),
        (2, 2, 100, Some((1, 0, 1, 2)), Role::Blocked),
        (2, 3, 100, Some((1, 100, 3, 2)), Role::Designated(1, 100)),
        (3, 1, 100, Some((1, 0, 1, 1)), Role::Root),
        (3, 2, 100, Some((1, 100, 2, 3)), Role::Blocked),
        (3, 3, 100, Some((1, 100, 2, 3)), Role::Blocked),
    ],
    // Of the LANs, A has bridges 1 and 2; B 1, 3 and 4; C 2, 3 and 5; D and E both 4 and 5. The near path of bridge 3 makes
    // it the designated bridge of C.
    &[
        (1, 1, 100, None, Role::Designated(1, 0)),
        (1, 2, 100, None, Role::Designated(1, 0)),
        (2, 1, 100, Some((1, 0, 1, 1)), Role::Root),
        (2, 2, 100, Some((1, 19, 3, 2)), Role::Blocked),
        (3, 1, 19, Some((1, 0, 1, 2)), Role::Root),
        (3, 2, 100, Some((1, 100, 2, 2)), Role::Designated(1, 19)),
        (4, 1, 100, Some((1, 0, 1, 2)), Role::Root),
        (4, 2, 100, Some((1, 119, 5, 2)), Role::Designated(1, 100)),
        (4, 3, 100, None, Role::Designated(1, 100)),
        (5, 1, 100, Some((1, 19, 3, 2)), Role::Root),
        (5, 2, 100, Some((1, 100, 4, 2)), Role::Blocked),
        (5, 3, 100, Some((1, 100, 4, 3)), Role::Blocked),
    ],
];

#[test]
fn roles_in_networks(rt: HostRuntime) {
    for rows in NETWORKS {
        assert_network(&rt, rows);
    }
}

const ACKNOWLEDGED: &[Row] = &[
    (0, Event::SaysRoot(1, 0, 0, 1), &[], &[], None),
    (1000, Event::Now, &[], &[2], None),
    (10_000, Event::SaysRoot(1, 0, 0, 1), &[], &[2], None),
    (15_000, Event::Now, &[1, 2], &[], None),
    (25_000, Event::SaysRoot(1, 0, 0, 1), &[], &[2], None),
    (30_000, Event::Now, &[1, 2], &[], Some(1)),
    (31_999, Event::Now, &[], &[], None),
    (32_000, Event::Now, &[], &[], Some(1)),
    (33_000, Event::SaysRoot(1, 129, 0, 1), &[], &[2], None),
    (35_000, Event::Now, &[], &[], None),
    (35_500, Event::Notifies(2), &[], &[2], Some(1)),
    (35_500, Event::Notifies(1), &[], &[], None),
];

#[test]
fn acknowledged_change(rt: HostRuntime) {
    let mut tree = tree_of_two_ports(&rt);
    assert_rows(&rt, &mut tree, ACKNOWLEDGED);
    assert_same(
        &rt,
        &tree.hold(),
        &Some(15_000),
        "how long addresses are held",
    );
}

/// Each run is of two ports.
const RUNS: &[&[Row]] = &[
    // A message is put off.
    &[
        (0, Event::SaysRoot(1, 0, 0, 1), &[], &[], None),
        (500, Event::SaysRoot(1, 1, 0, 1), &[], &[], None),
        (999, Event::Now, &[], &[], None),
        (1000, Event::Now, &[], &[2], None),
        (1999, Event::SaysRoot(1, 0, 0, 1), &[], &[], None),
        (1999, Event::SaysRoot(2, 0, 0, 2), &[2], &[], None),
        (2000, Event::Now, &[], &[], None),
    ],
    // The bridge's own message returns.
    &[
        (0, Event::SaysRoot(1, 0, 0, 1), &[], &[], None),
        (2000, Event::Says(2, 0, 50, 1, 1), &[2], &[], None),
        (20_000, Event::Now, &[1], &[1], None),
        (22_000, Event::Now, &[2], &[1, 2], None),
    ],
    // Both ports hear the same: the lower number wins, and then the lower priority.
    &[
        (0, Event::Says(2, 0, 10, 2, 1), &[], &[], None),
        (0, Event::Says(1, 0, 10, 2, 1), &[2], &[], None),
        (0, Event::PortPriority(2, 64), &[1, 2], &[], None),
    ],
];

fn assert_run(rt: &impl Abort, rows: &[Row]) {
    let mut tree = tree_of_two_ports(rt);
    assert_rows(rt, &mut tree, rows);
}

#[test]
fn runs_of_two_ports(rt: HostRuntime) {
    for rows in RUNS {
        assert_run(&rt, rows);
    }
}

const MANAGED: &[Row] = &[
    (0, Event::SaysRoot(1, 0, 0, 1), &[], &[], None),
    (0, Event::Says(2, 0, 10, 3, 1), &[2], &[], None),
    (3000, Event::Cost(1, 200), &[1, 2], &[], None),
    (4000, Event::Priority(4096), &[1], &[1, 2], None),
    (6000, Event::SaysRoot(1, 0, 0, 1), &[], &[1], None),
    (6000, Event::Down(2), &[], &[], None),
    (6000, Event::On(false), &[1], &[], None),
    (6000, Event::Up(2), &[2], &[], None),
];

#[test]
fn managed_tree(rt: HostRuntime) {
    let mut tree = tree_of_two_ports(&rt);
    assert_rows(&rt, &mut tree, MANAGED);
    assert_same(&rt, &tree.last_message(port(&rt, 1)), &None, "no message");
    assert_same(&rt, &tree.hold(), &None, "no other hold");
}
