//! The bytes of general queries.
ghost use Rattle.std.specs.Prelude.{◌≡◌, ◌<◌, ◌^◌, ◌++◌};
ghost use Rattle.br_model.specs.Wire.MldHeaders.{icmp_of, pseudo_header};
ghost use Rattle.mcast_querier.specs.Queries.{checksum_six, ethernet, general_query_six, header_four, packet_six, query_four, query_six};

use crate::checksum::checksum;
use br_model::numbers::Mac;
use byteorder::{BigEndian, ByteOrder};

/// 224.0.0.1, and 01-00-5E-00-00-01, its address on Ethernet (RFC 1112 section 6.4).
const ALL_SYSTEMS: u32 = 0xE000_0001;

const ALL_SYSTEMS_ADDRESS: u64 = 0x0100_5E00_0001;

/// ff02::1, and 33-33-00-00-00-01, its address on Ethernet (RFC 2464 section 7).
const ALL_NODES: u128 = 0xFF02_0000_0000_0000_0000_0000_0000_0001;

const ALL_NODES_ADDRESS: u64 = 0x3333_0000_0001;

/// A membership query, to be answered within 10 s, its checksum, and no group (RFC 2236 section 2).
const GENERAL_QUERY: [u8; 8] = [0x11, 0x64, 0xEE, 0x9B, 0, 0, 0, 0];

/// The general query of version 4: IGMP version 2, with the option router alert (RFC 2113).
pub(crate) fn query_four(own: Mac, source: u32) -> [u8; 46]
    ensures { result ≡ query_four own source }
{
    let sum = checksum(&header_four(0, source));
    let mut frame = [0; 46];
    frame[..14].copy_from_slice(&ethernet(ALL_SYSTEMS_ADDRESS, own, 0x0800));
    frame[14..38].copy_from_slice(&header_four(sum, source));
    frame[38..].copy_from_slice(&GENERAL_QUERY);
    frame
}

/// The general query of version 6: MLD version 1, with the option router alert (RFC 2711).
pub(crate) fn query_six(own: Mac, source: u128) -> [u8; 86]
    ensures { result ≡ query_six own source }
{
    let mut frame = [0; 86];
    frame[..14].copy_from_slice(&ethernet(ALL_NODES_ADDRESS, own, 0x86DD));
    frame[14..].copy_from_slice(&packet_six(checksum_six(source), source));
    frame
}

fn ethernet(dst: u64, own: Mac, kind: u16) -> [u8; 14]
    requires { dst < 2 ^ 48 }
    ensures { result ≡ ethernet dst own kind }
{
    let mut header = [0; 14];
    BigEndian::write_u48(&mut header, dst);
    BigEndian::write_u48(&mut header[6..], own.number());
    BigEndian::write_u16(&mut header[12..], kind);
    header
}

// A header of 24 bytes with this checksum.
fn header_four(sum: u16, source: u32) -> [u8; 24]
    ensures { result ≡ header_four sum source }
{
    let mut header = [
        0x46, 0xC0, 0x00, 0x20, 0x00, 0x00, 0x40, 0x00, 0x01, 0x02, 0, 0, 0, 0, 0, 0, 0, 0, 0, 0,
        0x94, 0x04, 0x00, 0x00,
    ];
    BigEndian::write_u16(&mut header[10..], sum);
    BigEndian::write_u32(&mut header[12..], source);
    BigEndian::write_u32(&mut header[16..], ALL_SYSTEMS);
    header
}

// A header of 40 bytes, the hop-by-hop header of 8 bytes, and the query.
fn packet_six(sum: u16, source: u128) -> [u8; 72]
    ensures { result ≡ packet_six sum source }
{
    let mut packet = [0; 72];
    packet[..8].copy_from_slice(&[0x60, 0x00, 0x00, 0x00, 0x00, 0x20, 0x00, 0x01]);
    BigEndian::write_u128(&mut packet[8..], source);
    BigEndian::write_u128(&mut packet[24..], ALL_NODES);
    packet[40..48].copy_from_slice(&[0x3A, 0x00, 0x05, 0x02, 0x00, 0x00, 0x01, 0x00]);
    packet[48..].copy_from_slice(&general_query_six(sum));
    packet
}

// A multicast listener query with this checksum, to be answered within 10 s, and no group (RFC 2710 section 3).
fn general_query_six(sum: u16) -> [u8; 24]
    ensures { result ≡ general_query_six sum }
{
    let mut query = [0; 24];
    query[0] = 0x82;
    BigEndian::write_u16(&mut query[2..], sum);
    BigEndian::write_u16(&mut query[4..], 10_000);
    query
}

// The checksum of the query from this source.
fn checksum_six(source: u128) -> u16
    ensures { result ≡ checksum_six source }
{
    checksum(&summed_six(source))
}

// What it is over: the pseudo-header (RFC 8200 section 8.1), and the query with zeros in its place.
fn summed_six(source: u128) -> [u8; 64]
    ensures { result ≡ pseudo_header (packet_six 0 source) ++ icmp_of (packet_six 0 source) }
{
    let mut summed = [0; 64];
    BigEndian::write_u128(&mut summed, source);
    BigEndian::write_u128(&mut summed[16..], ALL_NODES);
    summed[35] = 24;
    summed[39] = 58;
    summed[40..].copy_from_slice(&general_query_six(0));
    summed
}
