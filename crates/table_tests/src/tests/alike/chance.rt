//! Changes and frames by chance. Ports, VLANs and addresses are few, so that they meet.
ghost use Rattle.std.specs.Prelude.{◌<◌, ◌≤◌};

use super::both::{LAST, SOFTWARE};
use br_model::change::{Change, FORWARDING, Flags, Kind};
use br_model::frame::{Head, McastMsg, Tag};
use br_model::group::Group;
use br_model::numbers::{Mac, Port, Vid};
use std::process::Abort;

/// Stations, groups of both IP versions, reserved addresses, and none.
const ADDRESSES: [u64; 13] = [
    0x0200_0000_000A,
    0x0200_0000_000B,
    0x0200_0000_000C,
    0x0200_0000_000D,
    0x0100_5E01_0101,
    0x0100_5E00_0001,
    0x3333_0000_0003,
    Mac::BROADCAST_ADDRESS,
    Mac::BRIDGE_GROUP_ADDRESS,
    Mac::PAUSE_ADDRESS,
    0x0180_C200_000E,
    0x0180_C200_0010,
    0,
];

/// How many of the addresses are stations.
const STATIONS: u64 = 4;

/// How many addresses there are.
const ALL: u64 = 13;

const GROUPS: [Group; 4] = [
    Group::V4(0xEF01_0101),
    Group::V4(0xE000_0005),
    Group::V6(0xFF05_0000_0000_0000_0000_0000_0000_0003),
    Group::V6(0xFF02_0000_0000_0000_0000_0000_0000_0001),
];

const KINDS: [Kind; 8] = [
    Kind::Local,
    Kind::Static,
    Kind::Static,
    Kind::Learned,
    Kind::Learned,
    Kind::Extern,
    Kind::Extern,
    Kind::Extern,
];

/// The default flags, most often, and others.
const FLAGS: [u8; 8] = [15, 15, 15, 15, 31, 47, 13, 3];

/// The VID of a tag: of priority alone, of VLANs, and of none.
const TAGS: [u16; 12] = [0, 0, 1, 1, 1, 1, 2, 2, 2, 2, 3, 4095];

/// Numbers that look like chance.
#[derive(Drop)]
pub(crate) struct Chance {
    state: u64,
}

impl Chance {
    pub(crate) fn first() -> Chance {
        Chance { state: 1 }
    }

    fn below(&mut self, most: u64) -> u64
        requires { 1 ≤ most }
        ensures { result < most }
    {
        self.state = self
            .state
            .wrapping_mul(6364136223846793005)
            .wrapping_add(1442695040888963407);
        (self.state >> 33) % most
    }

    pub(crate) fn coin(&mut self) -> bool {
        self.below(2) == 1
    }

    /// A port of a chip, most often, the host, or the port of software.
    fn port(&mut self, rt: &impl Abort) -> Port {
        match self.below(16) {
            0 => Port::HOST,
            1 => Port::new(SOFTWARE).expect(rt, "a port"),
            _ => self.chip_port(rt),
        }
    }

    pub(crate) fn chip_port(&mut self, rt: &impl Abort) -> Port {
        Port::new(self.below(u64::from(LAST)) as u8 + 1).expect(rt, "a port")
    }

    fn vid(&mut self, rt: &impl Abort) -> Vid {
        Vid::new(self.below(2) as u16 + 1).expect(rt, "a VLAN")
    }

    /// One of so many of the addresses.
    fn mac(&mut self, rt: &impl Abort, most: u64) -> Mac
        requires some { 1 ≤ most }
        requires few { most ≤ 13 }
    {
        Mac::from_number(ADDRESSES[self.below(most) as usize]).expect(rt, "an address")
    }

    fn group(&mut self) -> Group {
        GROUPS[self.below(4) as usize]
    }

    fn flags(&mut self, rt: &impl Abort) -> Flags {
        Flags::new(FLAGS[self.below(8) as usize]).expect(rt, "flags")
    }

    fn kind(&mut self) -> Kind {
        KINDS[self.below(8) as usize]
    }

    /// A change of a port and its VLANs. State 5 is none, and doesn't fit.
    fn change_of_port(&mut self, port: Port, vid: Vid, flags: Flags) -> Change {
        match self.below(64) {
            0 => Change::PortDown(port),
            1 | 2 => Change::PortUp(port),
            3..=10 => Change::SetFlags(port, flags),
            11 => Change::SetState(port, self.below(6) as u8),
            12 => Change::VlanDel { port, vid },
            13..=34 => Change::VlanAdd {
                port,
                vid,
                untagged: self.coin(),
                pvid: self.coin(),
            },
            _ => Change::SetState(port, FORWARDING),
        }
    }

    /// A change of groups, routers and switches.
    fn change_of_groups(&mut self, port: Port, vid: Vid) -> Change {
        let on = self.coin();
        let group = self.group();
        match self.below(8) {
            0 | 1 | 2 => Change::GroupJoin { port, vid, group },
            3 => Change::GroupPart { port, vid, group },
            4 => Change::Router { port, on },
            5 => Change::Querier {
                six: self.coin(),
                on,
            },
            6 => Change::Snoop(on),
            _ => Change::Stp(on),
        }
    }

    fn change_of_address(&mut self, port: Port, vid: Vid, mac: Mac) -> Change {
        match self.below(4) {
            0 => Change::AddrDel { vid, mac },
            _ => Change::AddrPut {
                vid,
                mac,
                port,
                kind: self.kind(),
            },
        }
    }

    pub(crate) fn change(&mut self, rt: &impl Abort) -> Change {
        let port = self.port(rt);
        let vid = self.vid(rt);
        match self.below(4) {
            0 => self.change_of_groups(port, vid),
            1 => {
                let mac = self.mac(rt, STATIONS);
                self.change_of_address(port, vid, mac)
            }
            _ => {
                let flags = self.flags(rt);
                self.change_of_port(port, vid, flags)
            }
        }
    }

    fn tag(&mut self) -> Option<Tag> {
        if self.coin() {
            return None;
        }
        Some(Tag {
            pcp: 5,
            dei: false,
            vid: TAGS[self.below(12) as usize],
        })
    }

    /// The header of a frame. Now and then its source isn't one station's address.
    pub(crate) fn head(&mut self, rt: &impl Abort) -> Head {
        let sources = if self.below(16) == 0 { ALL } else { STATIONS };
        let destinations = if self.below(3) == 0 { ALL } else { STATIONS };
        Head {
            dst: self.mac(rt, destinations),
            src: self.mac(rt, sources),
            tag: self.tag(),
            kind: 0x88B5,
            body: 18,
        }
    }

    /// What a frame says to snooping, most often nothing.
    pub(crate) fn message(&mut self) -> McastMsg {
        let six = self.coin();
        match self.below(16) {
            0 | 1 | 2 => McastMsg::Payload(self.group()),
            3 => McastMsg::Query { six, counted: true },
            4 => McastMsg::Report(self.group()),
            5 => McastMsg::Leave(self.group()),
            6 => McastMsg::Records {
                six,
                first: 42,
                count: 1,
            },
            7 => McastMsg::Unrecognized,
            _ => McastMsg::Plain,
        }
    }
}
