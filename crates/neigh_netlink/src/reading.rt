//! What a message says.
ghost use Rattle.std.specs.Prelude.{◌≡◌, ◌&&◌, bytes_eq, ◌+◌, ◌-◌, ◌≤◌, ◌<◌, ◌^◌, length, IfSome, if◌then◌else◌, nat_le, true};
ghost use Rattle.br_model.specs.Table.Domains.{last_port};
ghost use Rattle.neigh_netlink.specs.Messages.{has_ranges, is_message, message_length, written};
ghost use Rattle.neigh_netlink.specs.Reading.{address_at, four_at, has_flag, kind_by, read, said, two_at};
ghost use Rattle.neigh_netlink.specs.declared.neigh.Neigh.{Neigh};

use crate::neigh::Neigh;
use crate::writing::{
    LENGTH, NTF_EXT_LEARNED, NTF_OFFLOADED, NUD_NOARP, NUD_PERMANENT, RTM_NEWNEIGH, written,
};
use br_model::change::Kind;
use br_model::numbers::{Mac, Port, Vid};

/// What the bytes say: `None` exactly where they aren't just the bytes that `write` gives for a message. Allocates nothing.
pub fn read(bytes: &[u8]) -> Option<Neigh>
    ensures value { result ≡ read bytes.now }
    ensures whole { IfSome result (λ m. (is_message m ≡ true) × (written m ≡ bytes.now)) }
    ensures every { (m : Neigh) → has_ranges m ≡ true → m.mac < 2 ^ 48 → is_message m ≡ true → written m ≡ bytes.now → result ≡ Some m }
{
    if bytes.len() != LENGTH {
        return None;
    }
    let m = said(bytes)?;
    if is_written(bytes, &m) { Some(m) } else { None }
}

// Whether the bytes are just those of the message.
fn is_written(b: &[u8], m: &Neigh) -> bool
    ensures { result ≡ (is_message m.now && bytes_eq (written m.now) b.now) }
{
    m.is_message() && written(m).as_slice() == b
}

// What the bytes say where they are a message: each part by its own place. `None` exactly where a VLAN or a port is out of range.
fn said(b: &[u8]) -> Option<Neigh>
    requires { length b.now ≡ message_length }
    ensures { result ≡ (if has_ranges (said b.now) then Some (said b.now) else None) }
{
    let vid = Vid::new(two_at(b, 44))?;
    let port = port_by(four_at(b, 20))?;
    let flags = b[26];
    Some(Neigh {
        new: two_at(b, 4) == RTM_NEWNEIGH,
        ticket: four_at(b, 8),
        vid,
        mac: address_at(b, 32),
        port,
        kind: kind_by(two_at(b, 24), flags),
        offload: has_flag(flags, NTF_OFFLOADED),
    })
}

// The port with this ifindex.
fn port_by(ifindex: u32) -> Option<Port>
    ensures { result ≡ (if nat_le (ifindex - 1) last_port then Some (ifindex - 1) else None) }
{
    let number = u8::try_from(ifindex.saturating_sub(1)).ok()?;
    Port::new(number)
}

// The kind of an entry by its state and its flags.
fn kind_by(state: u16, flags: u8) -> Kind
    ensures { result ≡ kind_by state flags }
{
    match state {
        NUD_PERMANENT => Kind::Local,
        NUD_NOARP => Kind::Static,
        _ if has_flag(flags, NTF_EXT_LEARNED) => Kind::Extern,
        _ => Kind::Learned,
    }
}

fn has_flag(flags: u8, flag: u8) -> bool
    ensures { result ≡ has_flag flags flag }
{
    flags & flag == flag
}

// The number in the two bytes from place `at` on.
fn two_at(b: &[u8], at: usize) -> u16
    requires { at + 2 ≤ length b.now }
    ensures { result ≡ two_at b.now at }
{
    u16::from_le_bytes([b[at], b[at + 1]])
}

// The number in the four bytes from place `at` on.
fn four_at(b: &[u8], at: usize) -> u32
    requires { at + 4 ≤ length b.now }
    ensures { result ≡ four_at b.now at }
{
    u32::from_le_bytes([b[at], b[at + 1], b[at + 2], b[at + 3]])
}

// The address in the six bytes from place `at` on.
fn address_at(b: &[u8], at: usize) -> Mac
    requires { at + 6 ≤ length b.now }
    ensures { result ≡ address_at b.now at }
{
    Mac::new([b[at], b[at + 1], b[at + 2], b[at + 3], b[at + 4], b[at + 5]])
}
