//! What a message says.
ghost use Rattle.std.specs.Prelude.{◌≡◌};
ghost use Rattle.neigh_netlink.specs.Messages.{is_message};

use br_model::change::Kind;
use br_model::numbers::{Mac, Port, Vid};

/// How many tickets there are: one for each change that a run may have.
const TICKETS: u32 = 1 << 20;

/// An address entry that came, changed or went.
#[derive(Clone, Copy, PartialEq, Eq, Debug)]
pub struct Neigh {
    /// Whether it came or changed.
    pub new: bool,
    /// Of the change, from 0 on in the order of acceptance.
    pub ticket: u32,
    pub vid: Vid,
    pub mac: Mac,
    pub port: Port,
    pub kind: Kind,
    /// Whether a chip has it.
    pub offload: bool,
}

impl Neigh {
    /// Whether a message can say it: the ticket is one of a run, the address is one of a station, just an entry of the host is
    /// local, and an entry that went isn't offloaded.
    pub fn is_message(&self) -> bool
        ensures { result ≡ is_message self.now }
    {
        self.ticket < TICKETS
            && !self.mac.is_multicast()
            && self.mac.number() != 0
            && (self.kind == Kind::Local) == self.port.is_host()
            && (self.new || !self.offload)
    }
}
