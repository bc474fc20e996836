//! Whose query a frame is.
ghost use Rattle.std.specs.Prelude.{◌≡◌, ◌≤◌, ◌+◌, Ok, length};
ghost use Rattle.std.specs.Option.{option_map};
ghost use Rattle.br_model.specs.Wire.Frames.{frame, number_at};
ghost use Rattle.mcast_querier.specs.Hearing.{asker as asker_of, source_end, source_in};

use br_model::frame::{Head, McastMsg};
use byteorder::{BigEndian, ByteOrder};
use igmp_mld::classify;

/// The IP source of a general query, whose header `parse` reads as `head`: `None` exactly where the frame
/// is none, or its source is zero.
pub fn asker(bytes: &[u8], head: &Head) -> Option<u128>
    requires { frame bytes.now ≡ Ok head.now }
    ensures { result ≡ option_map (λ a. a.1) (asker_of bytes.now head.now) }
{
    match asker_in(bytes, head) {
        Some((_, address)) => Some(address),
        None => None,
    }
}

/// Who asks by the frame: whether in version 6, and the address.
pub(crate) fn asker_in(b: &[u8], h: &Head) -> Option<(bool, u128)>
    requires { frame b.now ≡ Ok h.now }
    ensures { result ≡ asker_of b.now h.now }
{
    match classify(b, h) {
        McastMsg::Query { six, counted: true } => Some((six, source_in(h.kind, &b[h.body..]))),
        McastMsg::Query { counted: false, .. } => None,
        McastMsg::Plain
        | McastMsg::Payload(_)
        | McastMsg::Report(_)
        | McastMsg::Leave(_)
        | McastMsg::Records { .. }
        | McastMsg::Unrecognized => None,
    }
}

// The source's address of the packet in a frame of this type.
fn source_in(kind: u16, packet: &[u8]) -> u128
    requires { source_end kind ≤ length packet.now }
    ensures { result ≡ source_in kind packet.now }
{
    if kind == 0x0800 {
        u128::from(four_at(packet, 12))
    } else {
        sixteen_at(packet, 8)
    }
}

// The number in the four bytes from place `at` on.
#[tactic(auto, using(igmp_mld::proofs::BigEndian::number_at_read))]
fn four_at(bytes: &[u8], at: usize) -> u32
    requires { at + 4 ≤ length bytes.now }
    ensures { result ≡ number_at bytes.now at 4 }
{
    BigEndian::read_u32(&bytes[at..])
}

// The number in the sixteen bytes from place `at` on.
#[tactic(auto, using(igmp_mld::proofs::BigEndian::number_at_read))]
fn sixteen_at(bytes: &[u8], at: usize) -> u128
    requires { at + 16 ≤ length bytes.now }
    ensures { result ≡ number_at bytes.now at 16 }
{
    BigEndian::read_u128(&bytes[at..])
}
