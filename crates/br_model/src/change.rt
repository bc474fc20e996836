//! What is accepted: the changes of the bridge's table.
ghost use Rattle.std.specs.Prelude.{◌≡◌, ◌<◌, ◌↔◌, IsSome, IfSome};
ghost use Rattle.br_model.specs.Table.Change.{asks, deferred};

use crate::domains::Edition;
use crate::group::Group;
use crate::numbers::{Mac, Port, Vid};
use std::marker::Model;

/// How an address entry came to be. Local entries are the host's own addresses; extern ones were learned by a chip.
#[derive(Clone, Copy, PartialEq, Eq, Debug)]
pub enum Kind {
    Local,
    Static,
    Learned,
    Extern,
}

/// The state of a port that is down, or just came up (Linux's BR_STATE_DISABLED).
pub const DISABLED: u8 = 0;

/// The state of a port that neither learns nor forwards, but is on its way there (Linux's BR_STATE_LISTENING).
pub const LISTENING: u8 = 1;

/// The state of a port that learns and doesn't forward yet (Linux's BR_STATE_LEARNING).
pub const LEARNING: u8 = 2;

/// The state of a port that forwards frames (Linux's BR_STATE_FORWARDING).
pub const FORWARDING: u8 = 3;

/// The last of the states: of a port that passes no frames on (Linux's BR_STATE_BLOCKING).
pub const BLOCKING: u8 = 4;

/// The flags of a port, a bit each from the lowest on: learning, flood, mcast_flood, bcast_flood, isolated, fastleave.
#[derive(Clone, Copy, PartialEq, Eq, Debug)]
pub struct Flags {
    bits: u8,
}

impl Model for Flags {
    ghost use Rattle.std.specs.Prelude.{ℕ, ◌<◌};

    ghost Value = { ℕ };

    ghost view = { λ f. f.bits };

    ghost invariant = { λ f. f.bits < 64 };

    ghost inverse = { λ n. record { bits = n } };
}

impl Flags {
    /// Learning, flood, mcast_flood and bcast_flood: those of a port that comes up.
    pub const DEFAULT: Flags = Flags { bits: 15 };

    // The places of the flags, from the lowest bit on.
    pub const LEARNING: u8 = 0;

    pub const FLOOD: u8 = 1;

    pub const MCAST_FLOOD: u8 = 2;

    pub const BCAST_FLOOD: u8 = 3;

    pub const ISOLATED: u8 = 4;

    pub const FASTLEAVE: u8 = 5;

    /// `None` exactly above 63.
    pub fn new(bits: u8) -> Option<Flags>
        ensures found { IsSome result ↔ (bits < 64) }
        ensures value { IfSome result (λ f. f ≡ bits) }
    {
        if bits < 64 {
            Some(Flags { bits })
        } else {
            None
        }
    }

    /// Bit n is the flag whose place is n, `LEARNING` to `FASTLEAVE`.
    pub fn bits(self) -> u8
        ensures value { result ≡ self }
        ensures below { self < 64 }
    {
        self.bits
    }
}

/// One change of the table. Each touches its own part of it.
#[derive(Clone, Copy)]
pub enum Change {
    PortUp(Port),
    PortDown(Port),
    SetFlags(Port, Flags),
    /// The state is one of Linux's numbers: disabled 0, listening 1, learning 2, forwarding 3, blocking 4.
    SetState(Port, u8),
    VlanAdd {
        port: Port,
        vid: Vid,
        untagged: bool,
        pvid: bool,
    },
    VlanDel {
        port: Port,
        vid: Vid,
    },
    GroupJoin {
        port: Port,
        vid: Vid,
        group: Group,
    },
    GroupPart {
        port: Port,
        vid: Vid,
        group: Group,
    },
    Router {
        port: Port,
        on: bool,
    },
    /// Whether a querier of this IP version is known.
    Querier {
        six: bool,
        on: bool,
    },
    Snoop(bool),
    Stp(bool),
    AddrPut {
        vid: Vid,
        mac: Mac,
        port: Port,
        kind: Kind,
    },
    AddrDel {
        vid: Vid,
        mac: Mac,
    },
}

/// What a change asks for.
#[derive(Clone, Copy)]
pub enum Asks {
    Nothing,
    /// That this is the number of a state.
    State(u8),
    /// Room for a member of the group in the VLAN.
    GroupRoom(Vid, Group),
    /// Room for an entry at the address.
    AddressRoom(Vid, Mac),
}

impl Change {
    /// What it asks for.
    pub fn asks(&self) -> Asks
        ensures { result ≡ asks self.now }
    {
        match *self {
            Change::SetState(_, state) => Asks::State(state),
            Change::GroupJoin { vid, group, .. } => Asks::GroupRoom(vid, group),
            Change::AddrPut { vid, mac, .. } => Asks::AddressRoom(vid, mac),
            _ => Asks::Nothing,
        }
    }

    /// Whether it reaches a chip through the queue, and not in the step that accepts it.
    pub fn is_deferred(&self, edition: Edition) -> bool
        ensures { result ≡ deferred edition self.now }
    {
        match self {
            Change::GroupJoin { .. } | Change::GroupPart { .. } => edition.defers_groups(),
            Change::AddrPut { .. } | Change::AddrDel { .. } => true,
            _ => false,
        }
    }
}

/// A deferred change on its way to a chip. Tickets count from 0 in the order of acceptance.
#[derive(Clone, Copy)]
pub struct Update {
    pub ticket: u32,
    pub change: Change,
}
