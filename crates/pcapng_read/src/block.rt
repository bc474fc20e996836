//! The block at the front of bytes.
ghost use Rattle.std.specs.Prelude.{◌≡◌, ◌≤◌, ◌+◌, length, IfOk};
ghost use Rattle.br_model.specs.Wire.Captures.{front, is_length, least_length, order_by_magic, order_of, whole};

use crate::numbers::four_at;
use br_model::capture::{CapKind, Order};
use std::marker::Model;

/// The types of the blocks that are read. A section header's is the same in both byte orders.
pub const INTERFACE_DESCRIPTION: u32 = 1;

pub const ENHANCED_PACKET: u32 = 6;

pub const SECTION_HEADER: u32 = 0x0A0D_0D0A;

/// The bytes of a block besides its body.
pub const FRAME: usize = 12;

/// A section header's first field.
const MAGIC: u32 = 0x1A2B_3C4D;

/// The largest total length.
const LONGEST: u32 = 1 << 20;

/// A block, and the byte order of its section.
#[derive(Drop)]
pub struct Block<'a> {
    pub order: Order,
    pub kind: u32,
    pub body: &'a [u8],
}

impl<'a> Model for Block<'a> {
    ghost use Rattle.std.specs.Prelude.{◌≤◌, ◌+◌, length};
    ghost use Rattle.br_model.specs.Wire.Captures.{Block, least_length};

    ghost Value = { Block };

    ghost view = { λ b. record { order = b.order; kind = b.kind; body = b.body.now } };

    ghost invariant = { λ b. least_length b.kind ≤ length b.body.now + 12 };
}

// The least total length of a block of this type, without options.
fn least_length(kind: u32) -> u32
    ensures { result ≡ least_length kind }
{
    match kind {
        INTERFACE_DESCRIPTION => 20,
        ENHANCED_PACKET => 32,
        SECTION_HEADER => 28,
        _ => 12,
    }
}

fn is_length(kind: u32, total: u32) -> bool
    ensures { result ≡ is_length kind total }
{
    least_length(kind) <= total && total <= LONGEST && total % 4 == 0
}

fn order_by_magic(bytes: &[u8]) -> Result<Order, CapKind>
    requires { 12 ≤ length bytes.now }
    ensures { result ≡ order_by_magic bytes.now }
{
    if four_at(Order::HighFirst, bytes, 8) == MAGIC {
        Ok(Order::HighFirst)
    } else if four_at(Order::LowFirst, bytes, 8) == MAGIC {
        Ok(Order::LowFirst)
    } else {
        Err(CapKind::Magic)
    }
}

// The byte order of the block at the front, behind a section of the order `before`.
fn order_of(before: Option<Order>, bytes: &[u8]) -> Result<Order, CapKind>
    requires { 12 ≤ length bytes.now }
    ensures { result ≡ order_of before bytes.now }
{
    if four_at(Order::HighFirst, bytes, 0) == SECTION_HEADER {
        order_by_magic(bytes)
    } else {
        before.ok_or(CapKind::First)
    }
}

// The block of this total length at the front, tested in the order of `CapKind`.
fn whole<'a>(order: Order, total: u32, bytes: &'a [u8]) -> Result<Block<'a>, CapKind>
    requires { 12 ≤ length bytes.now }
    ensures told { result ≡ whole order total bytes.now }
    ensures fits { IfOk result (λ b. length b.body + 12 ≤ length bytes.now) }
{
    let kind = four_at(order, bytes, 0);
    if !is_length(kind, total) {
        return Err(CapKind::Length);
    }
    let end = total as usize;
    if bytes.len() < end {
        return Err(CapKind::Short);
    }
    if four_at(order, bytes, end - 4) != total {
        return Err(CapKind::Length);
    }
    Ok(Block {
        order,
        kind,
        body: &bytes[8..end - 4],
    })
}

/// The block at the front, behind a section of the byte order `before`; none was before the first block.
pub fn front<'a>(before: Option<Order>, bytes: &'a [u8]) -> Result<Block<'a>, CapKind>
    ensures told { result ≡ front before bytes.now }
    ensures fits { IfOk result (λ b. length b.body + 12 ≤ length bytes.now) }
{
    if bytes.len() < FRAME {
        return Err(CapKind::Short);
    }
    match order_of(before, bytes) {
        Ok(order) => whole(order, four_at(order, bytes, 4), bytes),
        Err(kind) => Err(kind),
    }
}
