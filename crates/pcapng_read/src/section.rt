//! What the blocks of a section say.
ghost use Rattle.std.specs.Prelude.{◌≡◌, ◌≤◌, [], ◌∷◌, ◌++◌, length, take, slice_get, OnOk, OnErr};
ghost use Rattle.br_model.specs.Wire.Captures.{enhanced_packet, number_in, says, packet_by};
ghost use Rattle.pcapng_read.specs.Telling.{Tells};

use crate::block::{Block, ENHANCED_PACKET, INTERFACE_DESCRIPTION, SECTION_HEADER};
use crate::fault::CapFault;
use crate::numbers::{four_at, two_at};
use br_model::NoMemory;
use br_model::bytes::Bytes;
use br_model::capture::{CapKind, Packet};
use std::alloc::Global;
use std::marker::Model;

/// The major version that is read.
const MAJOR_VERSION: u16 = 1;

/// The link type of Ethernet.
const ETHERNET: u16 = 1;

/// Where the captured bytes of a packet begin in its body.
const CAPTURED_AT: usize = 20;

// A packet whose bytes stand in its block.
#[derive(Drop)]
struct InPlace<'a> {
    interface: u32,
    bytes: &'a [u8],
}

impl<'a> Model for InPlace<'a> {
    ghost use Rattle.br_model.specs.declared.capture.Packet.{Packet};

    ghost Value = { Packet };

    ghost view = { λ p. record { interface = p.interface; bytes = p.bytes.now } };
}

// Keeps the link type of one more interface, if there is a port for it.
fn describe(ports: u32, links: &mut Vec<u16>, link: u16) -> Result<(), NoMemory>
    requires { length links.old.items ≤ ports }
    ensures ok { OnOk result (links.new.items ≡ take ports (links.old.items ++ link ∷ [])) }
    ensures err { OnErr result (links.new.items ≡ links.old.items) }
{
    if links.len() < ports as usize {
        links.push(link)?;
    }
    Ok(())
}

// The packet of a block, behind interfaces of these link types.
fn packet_by<'a>(links: &[u16], block: &Block<'a>) -> Result<InPlace<'a>, CapKind>
    requires { block.now.kind ≡ enhanced_packet }
    ensures { result ≡ packet_by (slice_get links.now (number_in block.now.order block.now.body 0 4)) block.now }
{
    let interface = four_at(block.order, block.body, 0);
    match links.get(interface as usize) {
        None => return Err(CapKind::Interface),
        Some(&ETHERNET) => {}
        Some(_) => return Err(CapKind::Link),
    }
    let captured = four_at(block.order, block.body, 12) as usize;
    if block.body.len() < CAPTURED_AT + captured {
        return Err(CapKind::Captured);
    }
    Ok(InPlace {
        interface,
        bytes: &block.body[CAPTURED_AT..CAPTURED_AT + captured],
    })
}

/// What a block at this place says behind interfaces of these link types, those that have a port; it keeps theirs.
pub fn says(
    alloc: Global,
    ports: u32,
    at: u32,
    links: &mut Vec<u16>,
    block: &Block,
) -> Result<Option<Packet>, CapFault>
    requires { length links.old.items ≤ ports }
    ensures told { Tells at (says ports links.old.items block.now) links.old.items result links.new.items }
    ensures within { length links.new.items ≤ ports }
{
    match block.kind {
        SECTION_HEADER => {
            if two_at(block.order, block.body, 4) != MAJOR_VERSION {
                return Err(CapFault::At {
                    offset: at,
                    kind: CapKind::Version,
                });
            }
            links.clear();
            Ok(None)
        }
        INTERFACE_DESCRIPTION => {
            describe(ports, links, two_at(block.order, block.body, 0))?;
            Ok(None)
        }
        ENHANCED_PACKET => match packet_by(links.as_slice(), block) {
            Ok(packet) => Ok(Some(Packet {
                interface: packet.interface,
                bytes: Bytes::copy_of(alloc, packet.bytes)?,
            })),
            Err(kind) => Err(CapFault::At { offset: at, kind }),
        },
        _ => Ok(None),
    }
}
