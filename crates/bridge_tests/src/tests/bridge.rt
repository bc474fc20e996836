//! Worked runs as tables, limits, and random events beside a plain list of stations.
ghost use Rattle.bridge_core.specs.Answers.{IsEvent};

use super::common::{assert_same, assert_that, port, vid};
use br_model::bytes::Bytes;
use br_model::change::{Flags, Kind};
use br_model::domains::Domains;
use br_model::group::Ip;
use br_model::numbers::{Dom, Mac, Vid};
use br_model::steps::{Command, Event, Refusal};
use bridge_core::{Bridge, EventFault};
use ether_frames::parse;
use std::alloc::Global;
use std::process::Abort;

/// What happens, by the numbers of ports, VLANs and stations.
#[derive(Clone, Copy)]
enum Happening {
    Up(u8),
    Down(u8),
    Flood(u8, bool),
    Joined(u8, u16),
    Left(u8, u16),
    Added(u8, u8, u16, Kind),
    Deleted(u8),
    /// The port, the VLAN and the address of the group.
    Grouped(u8, u16, Ip),
    Ungrouped(u8, u16, Ip),
    Snooped(bool),
    Aged(u32),
    Waited(u32),
    Seen(u8, u8),
}

/// 02:00:00:00:00 and the number.
fn mac_of(number: u8) -> Mac {
    Mac::new([2, 0, 0, 0, 0, number])
}

fn flood(rt: &impl Abort, number: u8, on: bool) -> Command {
    Command::Link {
        port: port(rt, number),
        flag: Flags::new(2).expect(rt, "flags"),
        on,
    }
}

fn joined(rt: &impl Abort, number: u8, vlan: u16) -> Command {
    Command::VlanAdd {
        port: port(rt, number),
        vid: vid(rt, vlan),
        untagged: false,
        pvid: false,
    }
}

fn left(rt: &impl Abort, number: u8, vlan: u16) -> Command {
    Command::VlanDel {
        port: port(rt, number),
        vid: vid(rt, vlan),
    }
}

fn grouped(rt: &impl Abort, number: u8, vlan: u16, group: Ip) -> Command {
    Command::MdbAdd {
        port: port(rt, number),
        vid: vid(rt, vlan),
        group,
    }
}

fn ungrouped(rt: &impl Abort, number: u8, vlan: u16, group: Ip) -> Command {
    Command::MdbDel {
        port: port(rt, number),
        vid: vid(rt, vlan),
        group,
    }
}

fn added(rt: &impl Abort, mac: Mac, number: u8, vlan: u16, kind: Kind) -> Command {
    Command::FdbAdd {
        vid: vid(rt, vlan),
        mac,
        port: port(rt, number),
        kind,
    }
}

fn deleted(mac: Mac) -> Command {
    Command::FdbDel {
        vid: Vid::DEFAULT,
        mac,
    }
}

/// A frame of 16 bytes to the station 11 that came by the port.
fn sight(rt: &impl Abort, alloc: Global, from: u8, number: u8) -> Event
    ensures { IsEvent result }
{
    let bytes = [2, 0, 0, 0, 0, 11, 2, 0, 0, 0, 0, from, 0x88, 0xb5, 1, 2];
    match parse(&bytes) {
        Ok(head) => Event::Sight {
            port: port(rt, number),
            bytes: Bytes::copy_of(alloc, &bytes).expect(rt, "memory"),
            head,
        },
        Err(_) => panic!(rt; "no frame"),
    }
}

fn event(rt: &impl Abort, alloc: Global, happening: Happening) -> Event
    ensures { IsEvent result }
{
    match happening {
        Happening::Up(at) => Event::Cmd(Command::PortUp(port(rt, at))),
        Happening::Down(at) => Event::Cmd(Command::PortDown(port(rt, at))),
        Happening::Flood(at, on) => Event::Cmd(flood(rt, at, on)),
        Happening::Joined(at, vlan) => Event::Cmd(joined(rt, at, vlan)),
        Happening::Left(at, vlan) => Event::Cmd(left(rt, at, vlan)),
        Happening::Added(mac, at, vlan, kind) => {
            Event::Cmd(added(rt, mac_of(mac), at, vlan, kind))
        }
        Happening::Deleted(mac) => Event::Cmd(deleted(mac_of(mac))),
        Happening::Grouped(at, vlan, group) => Event::Cmd(grouped(rt, at, vlan, group)),
        Happening::Ungrouped(at, vlan, group) => Event::Cmd(ungrouped(rt, at, vlan, group)),
        Happening::Snooped(on) => Event::Cmd(Command::Snooping(on)),
        Happening::Aged(seconds) => Event::Cmd(Command::Ageing(seconds)),
        Happening::Waited(now) => Event::Moment(u64::from(now)),
        Happening::Seen(mac, at) => sight(rt, alloc, mac, at),
    }
}

/// How many changes the event makes, or its refusal.
fn answer(
    rt: &impl Abort,
    alloc: Global,
    bridge: &mut Bridge,
    event: &Event,
) -> Result<usize, Refusal>
    requires { IsEvent event.now }
{
    match bridge.react(alloc, event) {
        Ok(reaction) => Ok(bridge.history().len().saturating_sub(reaction.from)),
        Err(EventFault::Refused(refusal)) => Err(refusal),
        Err(EventFault::NoMemory) => panic!(rt; "no memory"),
    }
}

/// The chip's domain for the ports up to this one.
fn domain_of(rt: &impl Abort, number: u8, last: u8) -> Dom {
    if number <= last {
        Dom::new(1).expect(rt, "a domain")
    } else {
        Dom::SOFTWARE
    }
}

/// A bridge with the ports 1 to 3, which come up. The chip has those up to `chips`.
fn of_three_ports(rt: &impl Abort, alloc: Global, chips: u8) -> Bridge {
    let mut domains = Domains::make();
    domains.set(port(rt, 1), domain_of(rt, 1, chips));
    domains.set(port(rt, 2), domain_of(rt, 2, chips));
    domains.set(port(rt, 3), domain_of(rt, 3, chips));
    let mut bridge = Bridge::make(alloc, domains, Mac::FIRST_OWN).expect(rt, "memory");
    play(rt, alloc, &mut bridge, UP);
    bridge
}

type Step = (Happening, Result<usize, Refusal>);

const UP: &[Step] = &[
    (Happening::Up(1), Ok(3)),
    (Happening::Up(2), Ok(3)),
    (Happening::Up(3), Ok(3)),
];

/// Plays the steps, and compares what each of them comes to.
fn play(rt: &impl Abort, alloc: Global, bridge: &mut Bridge, steps: &[Step]) {
    for step in steps {
        play_one(rt, alloc, bridge, *step);
    }
}

fn play_one(rt: &impl Abort, alloc: Global, bridge: &mut Bridge, (happening, expected): Step) {
    let event = event(rt, alloc, happening);
    let found = answer(rt, alloc, bridge, &event);
    assert_that(rt, found == expected, "a step");
}

/// A command that makes one change.
fn change(rt: &impl Abort, alloc: Global, bridge: &mut Bridge, command: Command) {
    let found = answer(rt, alloc, bridge, &Event::Cmd(command));
    assert_that(rt, found == Ok(1), "a command");
}

const REFUSALS: &[Step] = &[
    (Happening::Up(1), Err(Refusal::PortIsUp)),
    (
        Happening::Added(11, 2, 7, Kind::Static),
        Err(Refusal::NotMember),
    ),
    (Happening::Added(11, 2, 1, Kind::Static), Ok(1)),
    (
        Happening::Added(11, 3, 1, Kind::Static),
        Err(Refusal::Exists),
    ),
    (Happening::Deleted(10), Err(Refusal::Absent)),
    (Happening::Down(3), Ok(2)),
    (Happening::Flood(3, false), Err(Refusal::PortNotUp)),
];

/// The extern entry stays, the learned one is over 300 s after it was learned.
const AGEING: &[Step] = &[
    (Happening::Added(12, 2, 1, Kind::Extern), Ok(1)),
    (Happening::Seen(10, 1), Ok(1)),
    (Happening::Waited(299_999), Ok(0)),
    (Happening::Waited(300_000), Ok(1)),
    (Happening::Waited(299_999), Err(Refusal::Backward)),
];

/// A frame that comes by another port moves its source, and one that comes by the same renews it.
const MOVES: &[Step] = &[
    (Happening::Seen(10, 1), Ok(1)),
    (Happening::Seen(10, 2), Ok(1)),
    (Happening::Waited(1000), Ok(0)),
    (Happening::Seen(10, 2), Ok(0)),
    (Happening::Waited(300_999), Ok(0)),
    (Happening::Waited(301_000), Ok(1)),
    (Happening::Seen(10, 1), Ok(1)),
    (Happening::Aged(1), Ok(0)),
    (Happening::Waited(302_000), Ok(1)),
];

/// A chip's port teaches nothing here, and what a port has goes with it or with its VLAN.
const CHIP_PORTS: &[Step] = &[
    (Happening::Seen(10, 1), Ok(0)),
    (Happening::Added(11, 2, 1, Kind::Static), Ok(1)),
    (Happening::Down(2), Ok(3)),
    (Happening::Up(2), Ok(3)),
    (Happening::Joined(2, 10), Ok(1)),
    (Happening::Joined(2, 10), Err(Refusal::Exists)),
    (Happening::Added(12, 2, 10, Kind::Static), Ok(1)),
    (Happening::Left(2, 10), Ok(2)),
    (Happening::Left(2, 10), Err(Refusal::Absent)),
];

/// 239.0.0.0 and the number.
fn group(number: u16) -> Ip {
    Ip::V4(0xEF00_0000 + u32::from(number))
}

const STATION: Ip = Ip::V4(0x0A00_0001);

const ALL_NODES: Ip = Ip::V6(0xFF02_0000_0000_0000_0000_0000_0000_0001);

/// Groups by their numbers.
const GROUP_0: Ip = Ip::V4(0xEF00_0000);

const GROUP_1023: Ip = Ip::V4(0xEF00_03FF);

const GROUP_1024: Ip = Ip::V4(0xEF00_0400);

/// Members of groups by command: which addresses are groups', and the order of refusals.
const GROUPS: &[Step] = &[
    (Happening::Grouped(1, 1, GROUP_0), Ok(1)),
    (Happening::Grouped(1, 1, GROUP_0), Err(Refusal::Exists)),
    (Happening::Grouped(2, 7, STATION), Err(Refusal::NotAGroup)),
    (
        Happening::Grouped(1, 1, Ip::V4(0xE000_00FF)),
        Err(Refusal::NotAGroup),
    ),
    (Happening::Grouped(1, 1, Ip::V4(0xE000_0100)), Ok(1)),
    (Happening::Grouped(0, 1, ALL_NODES), Err(Refusal::NotAGroup)),
    (Happening::Grouped(2, 7, GROUP_0), Err(Refusal::NotMember)),
    (Happening::Ungrouped(2, 7, STATION), Err(Refusal::NotAGroup)),
    (Happening::Ungrouped(2, 7, GROUP_0), Err(Refusal::Absent)),
    (Happening::Ungrouped(1, 1, GROUP_0), Ok(1)),
    (Happening::Ungrouped(1, 1, GROUP_0), Err(Refusal::Absent)),
    (Happening::Snooped(true), Ok(0)),
    (Happening::Snooped(false), Ok(1)),
    (Happening::Waited(4_000_000), Ok(0)),
    (Happening::Down(3), Ok(2)),
    (Happening::Grouped(3, 1, STATION), Err(Refusal::PortNotUp)),
    (Happening::Ungrouped(3, 1, STATION), Err(Refusal::PortNotUp)),
    (Happening::Down(1), Ok(3)),
];

/// How many ports the chip has, what happens once the ports are up, and how many changes there are then.
type Run = (u8, &'static [Step], usize);

const RUNS: &[Run] = &[
    (0, REFUSALS, 12),
    (0, AGEING, 12),
    (0, MOVES, 14),
    (2, CHIP_PORTS, 20),
    (0, GROUPS, 18),
];

fn assert_run(rt: &impl Abort, alloc: Global, (chips, steps, changes): Run) {
    let mut bridge = of_three_ports(rt, alloc, chips);
    play(rt, alloc, &mut bridge, steps);
    assert_same(rt, &bridge.history().len(), &changes, "how many changes");
}

#[test]
fn worked_runs(rt: HostRuntime) {
    for run in RUNS {
        assert_run(&rt, rt.alloc(), *run);
    }
}

/// What follows on 1,024 pairs.
const MANY_PAIRS: &[Step] = &[
    (
        Happening::Grouped(1, 1, GROUP_1024),
        Err(Refusal::GroupsFull),
    ),
    (Happening::Grouped(2, 1, GROUP_1023), Ok(1)),
    (Happening::Ungrouped(1, 1, GROUP_0), Ok(1)),
    (Happening::Grouped(1, 1, GROUP_1024), Ok(1)),
];

/// The 1,025th pair of VLAN and group is refused; a pair that is there may have more members.
#[test]
fn no_more_than_1024_pairs(rt: HostRuntime) {
    let alloc = rt.alloc();
    let mut bridge = of_three_ports(&rt, alloc, 0);
    for number in 0..1024u16 {
        let joined = grouped(&rt, 1, 1, group(number));
        change(&rt, alloc, &mut bridge, joined);
    }
    play(&rt, alloc, &mut bridge, MANY_PAIRS);
}

/// What follows on 16,384 addresses.
const MANY_ADDRESSES: &[Step] = &[
    (
        Happening::Added(11, 1, 1, Kind::Static),
        Err(Refusal::FdbFull),
    ),
    (Happening::Seen(10, 1), Ok(0)),
];

fn added_by_number(rt: &impl Abort, number: u16) -> Command {
    let [high, low] = number.to_be_bytes();
    added(rt, Mac::new([2, 0, 0, 1, high, low]), 1, 1, Kind::Static)
}

#[test]
fn no_more_than_16384_addresses(rt: HostRuntime) {
    let alloc = rt.alloc();
    let mut bridge = of_three_ports(&rt, alloc, 0);
    for number in 0..16384u16 {
        change(&rt, alloc, &mut bridge, added_by_number(&rt, number));
    }
    play(&rt, alloc, &mut bridge, MANY_ADDRESSES);
}

/// What follows on 1,048,576 changes.
const MANY_CHANGES: &[Step] = &[
    (Happening::Flood(1, false), Ok(0)),
    (Happening::Flood(1, true), Err(Refusal::HistoryFull)),
    (Happening::Waited(5), Ok(0)),
];

#[test]
fn no_more_than_1048576_changes(rt: HostRuntime) {
    let alloc = rt.alloc();
    let mut bridge = of_three_ports(&rt, alloc, 0);
    let mut on = false;
    for _ in 0..1_048_567u32 {
        change(&rt, alloc, &mut bridge, flood(&rt, 1, on));
        on = !on;
    }
    play(&rt, alloc, &mut bridge, MANY_CHANGES);
}

/// A station of the plain list.
#[derive(Clone, Copy)]
struct Station {
    port: u8,
    kind: Kind,
    updated: u32,
}

/// The stations that are known in VLAN 1, the last moment, and how long learned ones stay.
#[derive(Drop)]
struct Plain {
    stations: [Option<Station>; 32],
    now: u32,
    hold: u32,
}

impl Plain {
    fn see(&mut self, number: u8, port: u8) -> Result<usize, Refusal> {
        let place = usize::from(number % 32);
        let (changes, kind) = match self.stations[place] {
            None => (1, Kind::Learned),
            Some(there) => {
                if there.kind == Kind::Static {
                    return Ok(0);
                }
                if there.port == port {
                    (0, there.kind)
                } else {
                    (1, Kind::Learned)
                }
            }
        };
        let updated = self.now;
        self.stations[place] = Some(Station {
            port,
            kind,
            updated,
        });
        Ok(changes)
    }

    fn add(&mut self, number: u8, port: u8, kind: Kind) -> Result<usize, Refusal> {
        let place = usize::from(number % 32);
        if self.stations[place].is_some() {
            return Err(Refusal::Exists);
        }
        let updated = self.now;
        self.stations[place] = Some(Station {
            port,
            kind,
            updated,
        });
        Ok(1)
    }

    fn delete(&mut self, number: u8) -> Result<usize, Refusal> {
        let place = usize::from(number % 32);
        if self.stations[place].is_none() {
            return Err(Refusal::Absent);
        }
        self.stations[place] = None;
        Ok(1)
    }

    fn wait(&mut self, now: u32) -> Result<usize, Refusal> {
        if now < self.now {
            return Err(Refusal::Backward);
        }
        self.now = now;
        let mut gone = 0usize;
        for place in 0..32 {
            if let Some(there) = self.stations[place] {
                if there.kind == Kind::Learned && there.updated.saturating_add(self.hold) <= now {
                    self.stations[place] = None;
                    gone = gone.wrapping_add(1);
                }
            }
        }
        Ok(gone)
    }
}

/// The next number of a row that looks like chance.
fn next(state: u64) -> u64 {
    state
        .wrapping_mul(6364136223846793005)
        .wrapping_add(1442695040888963407)
}

/// What happens by a number, and what the plain list comes to.
fn happens(plain: &mut Plain, number: u64) -> Step {
    let [which, mac, at, more, ..] = number.to_be_bytes();
    let (mac, at) = (mac % 32, 1 + at % 3);
    match which {
        0..=31 => {
            let kind = if more % 2 == 0 {
                Kind::Static
            } else {
                Kind::Extern
            };
            (Happening::Added(mac, at, 1, kind), plain.add(mac, at, kind))
        }
        32..=63 => (Happening::Deleted(mac), plain.delete(mac)),
        64..=67 => {
            let now = plain.now.saturating_add(u32::from(more)).saturating_sub(16);
            (Happening::Waited(now), plain.wait(now))
        }
        68..=71 => {
            plain.hold = 1000 * u32::from(more % 3);
            (Happening::Aged(u32::from(more % 3)), Ok(0))
        }
        _ => (Happening::Seen(mac, at), plain.see(mac, at)),
    }
}

#[test]
fn a_hundred_thousand_events(rt: HostRuntime) {
    let alloc = rt.alloc();
    let mut bridge = of_three_ports(&rt, alloc, 0);
    let mut plain = Plain {
        stations: [None; 32],
        now: 0,
        hold: 300_000,
    };
    let mut state = 14;
    for _ in 0..100_000u32 {
        state = next(state);
        let step = happens(&mut plain, state);
        play_one(&rt, alloc, &mut bridge, step);
    }
}
