//! What a frame's first bytes say.
ghost use Rattle.std.specs.Prelude.{◌≡◌};
ghost use Rattle.br_model.specs.Forward.Admission.{has_valid_source};
ghost use Rattle.br_model.specs.Forward.Class.{is_snooped};

use crate::group::Group;
use crate::numbers::Mac;

/// An 802.1Q tag: a priority of 3 bits, the drop eligible indicator, and a VLAN identifier of 12 bits.
#[derive(Clone, Copy, PartialEq, Eq, Debug)]
pub struct Tag {
    pub pcp: u8,
    pub dei: bool,
    pub vid: u16,
}

/// The header of a frame. `kind` is its type field, behind the tag where there is one; `body` is where the payload begins.
#[derive(Clone, Copy, Debug)]
pub struct Head {
    pub dst: Mac,
    pub src: Mac,
    pub tag: Option<Tag>,
    pub kind: u16,
    pub body: usize,
}

impl Head {
    /// Whether the source is one station's address.
    pub fn has_valid_source(&self) -> bool
        ensures { result ≡ has_valid_source self.now }
    {
        !self.src.is_multicast() && self.src.number() != 0
    }
}

/// What a chip does with a frame that enters on one of its ports.
#[derive(Clone, Copy, PartialEq, Eq, Debug)]
pub enum Class {
    /// It goes nowhere.
    Drop,
    /// It goes to the processor alone.
    Trap,
    /// It leaves the ports of the chip that it is for, if any, and goes to the processor too.
    Copy,
    /// It leaves ports of the chip alone.
    Forward,
}

/// Why bytes are no frame: below 14 bytes, above 9,022 bytes, or below 18 bytes with a tag.
#[derive(Clone, Copy, PartialEq, Eq, Debug)]
pub enum FrameFault {
    Short,
    Long,
    TagShort,
}

/// What a frame says to IGMP and MLD snooping.
#[derive(Clone, Copy, PartialEq, Eq, Debug)]
pub enum McastMsg {
    /// No IP multicast packet.
    Plain,
    /// A packet to this group.
    Payload(Group),
    /// `counted` for a general query from an address that isn't zero.
    Query { six: bool, counted: bool },
    Report(Group),
    Leave(Group),
    /// `count` records, from byte `first` of the frame on.
    Records { six: bool, first: usize, count: u16 },
    Unrecognized,
}

impl McastMsg {
    /// Whether snooping wants to see it.
    pub fn is_snooped(&self) -> bool
        ensures { result ≡ is_snooped self.now }
    {
        match self {
            McastMsg::Plain | McastMsg::Payload(_) => false,
            McastMsg::Query { .. }
            | McastMsg::Report(_)
            | McastMsg::Leave(_)
            | McastMsg::Records { .. }
            | McastMsg::Unrecognized => true,
        }
    }
}

/// What one record of a report says of a group.
#[derive(Clone, Copy, PartialEq, Eq, Debug)]
pub enum Act {
    Join(Group),
    Part(Group),
    /// It changes nothing.
    Nothing,
}
