//! The bytes of a message.
ghost use Rattle.std.specs.Prelude.{◌≡◌, IfOk, true};
ghost use Rattle.neigh_netlink.specs.Messages.{address_attribute, is_message, ndm_flags, ndm_state, ndmsg, nlmsg_type, nlmsghdr, vlan_attribute, written};

use crate::NoMemory;
use crate::neigh::Neigh;
use br_model::bytes::Bytes;
use br_model::change::Kind;
use br_model::numbers::{Mac, Vid};
use std::alloc::Global;

/// The bytes of a message.
pub(crate) const LENGTH: usize = 48;

/// The types of messages of an entry that comes or changes, and of one that goes (linux/rtnetlink.h).
pub(crate) const RTM_NEWNEIGH: u16 = 28;

const RTM_DELNEIGH: u16 = 29;

/// The family of a bridge's entries (linux/socket.h).
const AF_BRIDGE: u8 = 7;

/// The states of entries that were learned, that stay, and that are the host's own (linux/neighbour.h).
const NUD_REACHABLE: u16 = 0x02;

pub(crate) const NUD_NOARP: u16 = 0x40;

pub(crate) const NUD_PERMANENT: u16 = 0x80;

/// The flags of entries that a chip learned, and that a chip has (linux/neighbour.h).
pub(crate) const NTF_EXT_LEARNED: u8 = 0x10;

pub(crate) const NTF_OFFLOADED: u8 = 0x20;

/// The types of the attributes (linux/neighbour.h), and their lengths without padding.
const NDA_LLADDR: u16 = 2;

const LLADDR_LENGTH: u16 = 10;

const NDA_VLAN: u16 = 5;

const VLAN_LENGTH: u16 = 6;

/// The 48 bytes of a message.
pub fn write(alloc: Global, neigh: &Neigh) -> Result<Bytes, NoMemory>
    requires { is_message neigh.now ≡ true }
    ensures { IfOk result (λ bytes. bytes ≡ written neigh.now) }
{
    Bytes::copy_of(alloc, &written(neigh))
}

/// The same, on the stack.
#[tactic(auto, unfolding(crate::specs::Messages::written))]
pub(crate) fn written(m: &Neigh) -> [u8; LENGTH]
    ensures { result ≡ written m.now }
{
    let mut bytes = [0; LENGTH];
    bytes[..16].copy_from_slice(&nlmsghdr(m));
    bytes[16..28].copy_from_slice(&ndmsg(m));
    bytes[28..40].copy_from_slice(&address_attribute(m.mac));
    bytes[40..].copy_from_slice(&vlan_attribute(m.vid));
    bytes
}

fn nlmsghdr(m: &Neigh) -> [u8; 16]
    ensures { result ≡ nlmsghdr m.now }
{
    let mut header = [0; 16];
    header[..4].copy_from_slice(&(LENGTH as u32).to_le_bytes());
    header[4..6].copy_from_slice(&nlmsg_type(m.new).to_le_bytes());
    header[8..12].copy_from_slice(&m.ticket.to_le_bytes());
    header
}

fn nlmsg_type(new: bool) -> u16
    ensures { result ≡ nlmsg_type new }
{
    if new { RTM_NEWNEIGH } else { RTM_DELNEIGH }
}

fn ndmsg(m: &Neigh) -> [u8; 12]
    ensures { result ≡ ndmsg m.now }
{
    let ifindex = u32::from(m.port.number()) + 1;
    let mut entry = [0; 12];
    entry[0] = AF_BRIDGE;
    entry[4..8].copy_from_slice(&ifindex.to_le_bytes());
    entry[8..10].copy_from_slice(&ndm_state(m.kind).to_le_bytes());
    entry[10] = ndm_flags(m.kind, m.offload);
    entry
}

fn ndm_state(kind: Kind) -> u16
    ensures { result ≡ ndm_state kind }
{
    match kind {
        Kind::Local => NUD_PERMANENT,
        Kind::Static => NUD_NOARP,
        Kind::Learned | Kind::Extern => NUD_REACHABLE,
    }
}

fn ndm_flags(kind: Kind, offload: bool) -> u8
    ensures { result ≡ ndm_flags kind offload }
{
    let learned = if kind == Kind::Extern {
        NTF_EXT_LEARNED
    } else {
        0
    };
    let offloaded = if offload { NTF_OFFLOADED } else { 0 };
    learned | offloaded
}

fn address_attribute(mac: Mac) -> [u8; 12]
    ensures { result ≡ address_attribute mac }
{
    let address = mac.number().to_be_bytes();
    let mut attribute = [0; 12];
    attribute[..2].copy_from_slice(&LLADDR_LENGTH.to_le_bytes());
    attribute[2..4].copy_from_slice(&NDA_LLADDR.to_le_bytes());
    attribute[4..10].copy_from_slice(&address[2..]);
    attribute
}

fn vlan_attribute(vid: Vid) -> [u8; 8]
    ensures { result ≡ vlan_attribute vid }
{
    let mut attribute = [0; 8];
    attribute[..2].copy_from_slice(&VLAN_LENGTH.to_le_bytes());
    attribute[2..4].copy_from_slice(&NDA_VLAN.to_le_bytes());
    attribute[4..6].copy_from_slice(&vid.number().to_le_bytes());
    attribute
}
