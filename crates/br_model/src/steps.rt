//! The steps of the world, the commands and events among them, and the refusals.
ghost use Rattle.std.specs.Prelude.{◌≡◌, Some};
ghost use Rattle.std.specs.Option.{is_some};
ghost use Rattle.br_model.specs.Control.Refusals.{refusal_number, refusal_of};
ghost use Rattle.br_model.specs.Plane.Traits.{traits};

use crate::bytes::Bytes;
use crate::change::{Flags, Kind};
use crate::frame::Head;
use crate::group::Ip;
use crate::numbers::{Dom, Mac, Port, Vid};
use lists::Items;

/// A command, as a line of a scenario gives it.
#[derive(Clone, Copy, PartialEq, Eq)]
pub enum Command {
    PortUp(Port),
    PortDown(Port),
    /// Sets one flag of the port, or clears it.
    Link {
        port: Port,
        flag: Flags,
        on: bool,
    },
    /// The cost of the path by the port, for the spanning tree.
    Cost {
        port: Port,
        n: u16,
    },
    /// The port's priority in the spanning tree.
    PortPriority {
        port: Port,
        n: u8,
    },
    VlanAdd {
        port: Port,
        vid: Vid,
        untagged: bool,
        pvid: bool,
    },
    VlanDel {
        port: Port,
        vid: Vid,
    },
    FdbAdd {
        vid: Vid,
        mac: Mac,
        port: Port,
        kind: Kind,
    },
    FdbDel {
        vid: Vid,
        mac: Mac,
    },
    /// Makes the port a member of the group in the VLAN; the membership has no end.
    MdbAdd {
        port: Port,
        vid: Vid,
        group: Ip,
    },
    MdbDel {
        port: Port,
        vid: Vid,
        group: Ip,
    },
    /// Switches the spanning tree on or off.
    Stp(bool),
    /// The bridge's priority in the spanning tree.
    Priority(u16),
    /// How long learned entries stay that no frame renews, in seconds.
    Ageing(u32),
    /// Switches snooping on or off.
    Snooping(bool),
}

/// What a bridge reacts to.
#[derive(Drop)]
pub enum Event {
    Cmd(Command),
    /// The moment comes, in milliseconds from the start.
    Moment(u64),
    /// A frame that came by this port was sent; `head` is the header of `bytes`.
    Sight {
        port: Port,
        bytes: Bytes,
        head: Head,
    },
    /// A chip reported that it saw this station behind this port.
    Told {
        vid: Vid,
        mac: Mac,
        port: Port,
    },
    /// A chip no longer sees these stations behind these ports.
    Forget(Triples),
}

/// Stations and the ports behind which a chip had them, by VLAN and address.
pub type Triples = Items<(Vid, Mac, Port)>;

/// A step of the world.
#[derive(PartialEq, Eq, Drop)]
pub enum Step {
    /// A frame enters at a port.
    Rx { port: Port, bytes: Bytes },
    Cmd(Command),
    /// The moment comes, in milliseconds from the start.
    Now(u64),
    /// The oldest frame that waits is decided and sent.
    Serve,
    /// The oldest frame that waits is held. What is published now is its floor.
    Hold,
    /// The held frame with this id is decided, by the tables of its floor or of the point that is named, and sent.
    Post { id: u32, point: Option<u32> },
    /// The chip of this domain applies the next deferred change.
    Turn(Dom),
    /// The bridge is told the oldest report of this domain's chip.
    Report(Dom),
    /// The bridge forgets the stations that this domain's chip no longer sees.
    Sweep(Dom),
    /// The tables that frames are decided by become those of all accepted changes.
    Publish,
}

impl Step {
    pub fn is_frame(&self) -> bool
        ensures { result ≡ is_some (traits self.now).frame }
    {
        matches!(self, Step::Rx { .. })
    }

    pub fn is_publish(&self) -> bool
        ensures { result ≡ (traits self.now).publishes }
    {
        matches!(self, Step::Publish)
    }

    /// Whether workers take it from a scenario in the order of such steps. It may change a table.
    pub fn is_ordered(&self) -> bool
        ensures { result ≡ (traits self.now).ordered }
    {
        match self {
            Step::Cmd(_) | Step::Now(_) | Step::Sweep(_) => true,
            Step::Rx { .. }
            | Step::Serve
            | Step::Hold
            | Step::Post { .. }
            | Step::Turn(_)
            | Step::Report(_)
            | Step::Publish => false,
        }
    }

    /// Whether it may stand at the end of a run by workers, when the scenario's own steps are behind.
    pub fn may_drain(&self) -> bool
        ensures { result ≡ (traits self.now).drains }
    {
        match self {
            Step::Serve | Step::Turn(_) | Step::Report(_) | Step::Publish => true,
            Step::Rx { .. }
            | Step::Cmd(_)
            | Step::Now(_)
            | Step::Hold
            | Step::Post { .. }
            | Step::Sweep(_) => false,
        }
    }
}

/// Why a step was refused. A transcript tells its number.
#[derive(Clone, Copy, PartialEq, Eq)]
pub enum Refusal {
    /// `port up` of a port that is up.
    PortIsUp,
    /// The named port isn't up; the host is never down.
    PortNotUp,
    /// The port isn't a member of the VLAN.
    NotMember,
    /// The membership or the entry is there.
    Exists,
    /// It isn't there.
    Absent,
    /// A command would make the 16,385th address entry.
    FdbFull,
    /// A command would make the 1,025th pair of VLAN and group.
    GroupsFull,
    /// The history would pass 1,048,576 changes.
    HistoryFull,
    /// The moment is before the last one.
    Backward,
    /// No frame waits.
    NothingWaiting,
    /// The chip has applied every deferred change.
    NothingPending,
    /// The chip has reported nothing.
    NothingReported,
    /// The address isn't multicast, is in 224.0.0.0/24 or is ff02::1.
    NotAGroup,
    /// No frame with that id is held.
    NothingToPost,
    /// The count wasn't published since the frame was held.
    NoSuchPoint,
}

impl Refusal {
    /// What stands for it in a transcript.
    pub fn number(self) -> u32
        ensures value { result ≡ refusal_number self }
        ensures back { refusal_of result ≡ Some self }
    {
        match self {
            Refusal::PortIsUp => 1,
            Refusal::PortNotUp => 2,
            Refusal::NotMember => 3,
            Refusal::Exists => 4,
            Refusal::Absent => 5,
            Refusal::FdbFull => 6,
            Refusal::GroupsFull => 7,
            Refusal::HistoryFull => 8,
            Refusal::Backward => 9,
            Refusal::NothingWaiting => 10,
            Refusal::NothingPending => 11,
            Refusal::NothingReported => 12,
            Refusal::NotAGroup => 13,
            Refusal::NothingToPost => 14,
            Refusal::NoSuchPoint => 15,
        }
    }

    /// `None` exactly where no refusal has that number.
    pub fn from_number(number: u32) -> Option<Refusal>
        ensures { result ≡ refusal_of number }
    {
        match number {
            1 => Some(Refusal::PortIsUp),
            2 => Some(Refusal::PortNotUp),
            3 => Some(Refusal::NotMember),
            4 => Some(Refusal::Exists),
            5 => Some(Refusal::Absent),
            6 => Some(Refusal::FdbFull),
            7 => Some(Refusal::GroupsFull),
            8 => Some(Refusal::HistoryFull),
            9 => Some(Refusal::Backward),
            10 => Some(Refusal::NothingWaiting),
            11 => Some(Refusal::NothingPending),
            12 => Some(Refusal::NothingReported),
            13 => Some(Refusal::NotAGroup),
            14 => Some(Refusal::NothingToPost),
            15 => Some(Refusal::NoSuchPoint),
            _ => None,
        }
    }
}
