//! Reading the header of a frame, and writing a frame with another tag.
ghost use Rattle.std.specs.Prelude.{◌≡◌, ◌≤◌, ◌<◌, ◌+◌, ◌-◌, ◌++◌, IfOk, Some, None, Ok, length, take, drop};
ghost use Rattle.br_model.specs.Wire.Frames.{frame, dressed, tag_of, tag_bits};
ghost use Rattle.br_model.specs.Wire.Heads.{IsHead, TagFits};
ghost use Rattle.br_model.specs.Data.Numbers.{number};

use crate::NoMemory;
use br_model::bytes::Bytes;
use br_model::frame::{FrameFault, Head, Tag};
use br_model::numbers::{Mac, Vid};
use byteorder::{BigEndian, ByteOrder};
use std::alloc::Global;

/// Where the type field begins, or a tag in its place.
pub(crate) const TYPE_AT: usize = 12;

/// The bytes of a header without a tag.
pub(crate) const PLAIN_HEADER: usize = 14;

/// The bytes of a header with a tag.
const TAGGED_HEADER: usize = 18;

/// The longest frame, in bytes.
const LONGEST: usize = 9022;

/// The type of an 802.1Q tag.
const TAG_TYPE: u16 = 0x8100;

/// Reads the header: destination 6 bytes, source 6, type 2, numbers with the highest byte first (IEEE 802.3 clause
/// 3.2). Behind a type of 0x8100 stand 2 bytes of tag and then the type (IEEE 802.1Q-2018 section 9.6): priority in
/// the 3 highest bits, drop eligible in the next, VLAN identifier in the 12 lowest.
///
/// The faults are told in the order of `FrameFault`. The VLAN identifier may be 0 or 4095.
pub fn parse(b: &[u8]) -> Result<Head, FrameFault>
    ensures value { result ≡ frame b.now }
    ensures head { IfOk result (IsHead (length b.now)) }
{
    if b.len() < PLAIN_HEADER {
        return Err(FrameFault::Short);
    }
    if b.len() > LONGEST {
        return Err(FrameFault::Long);
    }
    let dst = address(b);
    let src = address(&b[6..]);
    let kind = BigEndian::read_u16(&b[TYPE_AT..]);
    if kind != TAG_TYPE {
        return Ok(Head {
            dst,
            src,
            tag: None,
            kind,
            body: PLAIN_HEADER,
        });
    }
    if b.len() < TAGGED_HEADER {
        return Err(FrameFault::TagShort);
    }
    Ok(Head {
        dst,
        src,
        tag: Some(tag_of(BigEndian::read_u16(&b[14..]))),
        kind: BigEndian::read_u16(&b[16..]),
        body: TAGGED_HEADER,
    })
}

// The address in the first six bytes.
pub(crate) fn address(b: &[u8]) -> Mac
    requires { 6 ≤ length b.now }
    ensures { result ≡ number (take 6 b.now) }
{
    let mut bytes = [0; 6];
    bytes.copy_from_slice(&b[..6]);
    Mac::new(bytes)
}

// The fields of a tag's two bytes.
fn tag_of(tci: u16) -> Tag
    ensures value { result ≡ tag_of tci }
    ensures fits { TagFits (Some result) }
{
    Tag {
        pcp: (tci >> 13) as u8,
        dei: tci >> 12 & 1 == 1,
        vid: tci & 0x0FFF,
    }
}

/// The bytes of the frame with the tag of this VLAN, or without a tag: destination, source, the tag where there is
/// one, and all from the type on. `h` is the header that `parse` reads from `b`. The tag, 0x8100 and 2 bytes
/// (IEEE 802.1Q-2018 section 9.6), keeps the priority and the drop eligible bit that came, and has zeros there where
/// no tag came.
pub fn dress(alloc: Global, b: &[u8], h: &Head, tag: Option<Vid>) -> Result<Bytes, NoMemory>
    requires { frame b.now ≡ Ok h.now }
    ensures { IfOk result (λ out. out ≡ dressed b.now h.now tag) }
{
    if tag.is_none() && h.body == PLAIN_HEADER {
        return Bytes::copy_of(alloc, b);
    }
    let mut out = Vec::with_capacity(alloc, b.len() + 4)?;
    out.extend_from_slice(&b[..TYPE_AT])?;
    if let Some(vid) = tag {
        let mut bytes = [0; 4];
        BigEndian::write_u16(&mut bytes, TAG_TYPE);
        BigEndian::write_u16(&mut bytes[2..], tag_bits(h.tag) + vid.number());
        out.extend_from_slice(&bytes)?;
    }
    out.extend_from_slice(&b[h.body - 2..])?;
    Ok(Bytes::of(out))
}

/// What stands in a frame before a tag, and all from the type on: the frame without a tag is the two together. `h` is the header
/// that `parse` reads from `b`.
pub fn parts<'a>(bytes: &'a [u8], head: &Head) -> (&'a [u8], &'a [u8])
    requires { frame bytes.now ≡ Ok head.now }
    ensures front { result.0.now ≡ take 12 bytes.now }
    ensures rest { result.1.now ≡ drop (head.now.body - 2) bytes.now }
    ensures short { length result.0.now + length result.1.now ≤ length bytes.now }
{
    (&bytes[..TYPE_AT], &bytes[head.body - 2..])
}

/// The bytes of the tag of this VLAN that stand between the two parts of a frame with this header, as `dress` writes them.
pub fn tag_bytes(b: &[u8], head: &Head, vid: Vid) -> [u8; 4]
    requires { frame b.now ≡ Ok head.now }
    ensures { dressed b.now head.now (Some vid) ≡ take 12 b.now ++ (result ++ drop (head.now.body - 2) b.now) }
{
    let mut bytes = [0; 4];
    BigEndian::write_u16(&mut bytes, TAG_TYPE);
    BigEndian::write_u16(&mut bytes[2..], tag_bits(head.tag) + vid.number());
    bytes
}

// The priority and drop eligible bits of a tag's two bytes, zeros where there is no tag.
fn tag_bits(tag: Option<Tag>) -> u16
    requires { TagFits tag }
    ensures value { result ≡ tag_bits tag }
    ensures fits { result ≤ 0xF000 }
{
    match tag {
        Some(tag) => (u16::from(tag.pcp) << 13) + (u16::from(tag.dei) << 12),
        None => 0,
    }
}
